ghost use Rattle.std.specs.Prelude.{◌≡◌};
ghost use Rattle.record.specs.declared.faults.RecordFault.TheVariants.{Layout};
ghost use Rattle.record.specs.Refusals.{sound as sound_term, fields_read, reason_of};

use crate::classes::Class;
use crate::fields::{Core, Field};
use refusal::Reason;

// Why a whole record cannot be read by itself.
#[derive(Clone, Copy, Debug, PartialEq, Eq)]
pub enum RecordFault {
    // the code is not two digits
    Code,
    // this field breaks the layout
    Layout(Field),
}

impl From<Field> for RecordFault {
    ghost from_gives = { λ e r. r ≡ Layout e };

    fn from(e: Field) -> RecordFault {
        RecordFault::Layout(e)
    }
}

// The fields of a core record, unless one breaks its layout.
pub fn fields_read(read: Result<Core, Field>) -> Result<Core, RecordFault>
    ensures { result ≡ fields_read read }
{
    Ok(read?)
}

// The class, unless the record cannot be read.
pub fn sound(class: Class) -> Result<Class, RecordFault>
    ensures { result ≡ sound_term class }
{
    match class {
        Class::BadCode => Err(RecordFault::Code),
        Class::Core(_, Err(field)) => Err(RecordFault::Layout(field)),
        _ => Ok(class),
    }
}

// Why the record is refused, as every refusal tells it.
impl From<RecordFault> for Reason {
    ghost from_gives = { λ fault r. r ≡ reason_of fault };

    fn from(fault: RecordFault) -> Reason {
        match fault {
            RecordFault::Code => Reason::BadCode,
            RecordFault::Layout(_) => Reason::BadField,
        }
    }
}
