// Whether a call may answer as it does.
use refusals::{Fault, Refusal};

// How many bytes a tape or an expression has at most, and a record.
const LONGEST: usize = 65536;

const LONGEST_RECORD: usize = 10;

// What was done to something sound: nothing; it was cut; or the byte at an offset was changed.
#[derive(Clone, Copy, Debug, PartialEq, Eq)]
pub enum Damage {
    Nothing,
    Cut,
    Changed(usize),
}

// Whether `form` may answer so of so many bytes.
pub fn may_form(answer: Result<(), Fault>, len: usize) -> bool {
    let Err(Fault { why, at }) = answer else {
        return len <= LONGEST;
    };
    match why {
        Refusal::Argument => LONGEST < len && at <= len,
        Refusal::BadRecord
        | Refusal::NoRow
        | Refusal::CutShort
        | Refusal::Unpaired
        | Refusal::TooDeep => len <= LONGEST && at <= len,
        _ => false,
    }
}

// Whether `expression_form` may: an expression has neither rows nor scopes.
pub fn may_expression(answer: Result<(), Fault>, len: usize) -> bool {
    match answer {
        Err(
            Fault {
                why: Refusal::NoRow | Refusal::Unpaired,
                ..
            },
        ) => false,
        _ => may_form(answer, len),
    }
}

// Whether `evaluate` may, if `expression_form` answers so: the same, or a number, or a refusal of the value at 0.
pub fn may_value(form: Result<(), Fault>, value: Result<(), Fault>) -> bool {
    match (form, value) {
        (Err(_), _) => value == form,
        (
            Ok(()),
            Err(
                Fault {
                    why: Refusal::Arithmetic | Refusal::Unresolved,
                    at,
                },
            ),
        ) => at == 0,
        (Ok(()), _) => value.is_ok(),
    }
}

// Whether a call may answer so of what was sound before: what is whole is done, what is cut is cut short, and no fault lies
// before the record with the changed byte.
pub fn may_after(damage: Damage, answer: Result<(), Fault>) -> bool {
    match (damage, answer) {
        (Damage::Nothing, _) => answer.is_ok(),
        (Damage::Cut, Ok(())) => false,
        (Damage::Cut, Err(fault)) => fault.why == Refusal::CutShort,
        (Damage::Changed(_), Ok(())) => true,
        (Damage::Changed(at), Err(fault)) => at.saturating_sub(fault.at) < LONGEST_RECORD,
    }
}
