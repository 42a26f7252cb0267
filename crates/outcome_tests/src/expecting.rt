use example_outcomes::Given;
use rule_core::AddError;
use std::process::Abort;

/// Ends the test unless exactly this is given, in order.
pub fn expect(rt: &impl Abort, given: Result<Given, AddError>, wanted: &[(i128, u32)]) {
    match given {
        Ok(given) => assert_eq!(rt; given.as_slice(), wanted),
        Err(_) => assert!(rt; false, "nothing is given"),
    }
}
