//! A law of a generic function, called once.
use crate::judgement_laws;

#[test]
fn laws_are_called() {
    judgement_laws::<u32>();
}
