// What there is to say of the faults of requests.

pub(crate) const REQUESTS: [(&str, &str); 5] = [
    (
        "J1",
        "J1 NotJson
Found in: a request.
The request is not JSON.
Usual cause: An empty body, another format, or bytes after the object.
Remedy: Send one JSON object in UTF-8 and nothing else.
",
    ),
    (
        "J2",
        "J2 NoRequest
Found in: a request.
The JSON has no object `request`.
Usual cause: A request in XML's shape, or one level too few.
Remedy: Send `{\"request\":{..}}`.
",
    ),
    (
        "J3",
        "J3 BadProtocol
Found in: a request.
The request's `protocol` is not the string `3.1`.
Usual cause: A client of protocol 3.0 or 4.0, or a number in place of the string.
Remedy: Send `\"protocol\":\"3.1\"`; other versions are not served.
",
    ),
    (
        "J4",
        "J4 BadApp
Found in: a request.
The app of that index, from 0, is no object with an `appid` of 1 to 256 bytes.
Usual cause: `app` is no list, or an `appid` is missing, empty or too long.
Remedy: Send `\"app\":[{\"appid\":\"..\"}]`.
",
    ),
    (
        "J5",
        "J5 TooManyApps
Found in: a request.
The request asks for more than 256 apps.
Usual cause: A client that joins many machines' requests.
Remedy: Split the request.
",
    ),
];
