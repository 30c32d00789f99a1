/// What is declared of a package: its bytes and its SHA-256.
#[derive(Clone, Copy, Drop)]
pub struct Declared {
    /// How many bytes the package has.
    pub size: u64,
    /// The SHA-256 of the package.
    pub hash: [u8; 32],
}
