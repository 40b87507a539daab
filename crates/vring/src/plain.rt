// Guest memory as it stands.

// The bytes of a guest that does not run meanwhile.
#[derive(Drop)]
pub struct Plain<'a> {
    pub bytes: &'a mut [u8],
}
