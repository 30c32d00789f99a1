/// A call that reaches out of the program failed: a read, a write, a post, a download, a step of an installer.
///
/// It doesn't say why; whoever makes the call knows what it was for.
#[derive(Clone, Copy, Drop)]
pub struct Failed;
