//! What holds of definitions alone.

ghost use Rattle.etcd_records.specs.Laws.{RepliesNeverGoBack, ServersKnowOneHistory};

// rule: One history for all servers
/// What one of two servers knows of a history begins with what the other knows, if etcd keeps what it created.
pub fn servers_know_one_history()
    ensures { ServersKnowOneHistory }
{}

// rule: Replies of one cluster
/// The replies that count, one after another, are of one cluster, whose state never goes back.
pub fn replies_never_go_back()
    ensures { RepliesNeverGoBack }
{}
