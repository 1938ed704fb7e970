// One call of a day, and what came of it.
use vocabulary::fault::Fault;
use vocabulary::fields::CallFields;

#[derive(Clone, Copy)]
pub struct Turn {
    // Where the call stands in its log; 0 outside one.
    pub place: usize,
    pub fields: CallFields,
    pub answer: Result<u32, Fault>,
}
