//! What holds of all certificates, each law as a clause of a function.

ghost use Rattle.certificates.specs.Laws.{ReadIsWritten, WrittenIsRead};

/// States that bytes which are read are the certificate of the table that they give.
pub fn read_is_written()
    ensures { ReadIsWritten }
{}

/// States that a table which has a row for each release, with prices below 2^50 and destinations that are
/// releases, is read back from its certificate.
pub fn written_is_read()
    ensures { WrittenIsRead }
{
    catalogue::version_laws::order();
}
