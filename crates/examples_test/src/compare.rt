// How the helpers of the tests compare.
use std::fmt::Debug;
use std::test::*;

// Checks that what was found is what is wanted.
pub fn same<T: PartialEq + Debug>(found: &T, wanted: &T) -> Result<(), Fail> {
    if found == wanted {
        Ok(())
    } else {
        Err(Fail::new(format_args!("{found:?} in place of {wanted:?}")))
    }
}
