ghost use Rattle.std.specs.Prelude.{◌+◌, map};
ghost use Rattle.command_parser.specs.RecordForms.{HasForms, IsWrongAt};

use crate::field_form::FieldForm;
use crate::record_forms::record_rows;

/// The number, from 1, of a wrong record's first field that is missing, one too many or none that may stand there.
pub(crate) fn wrong_field(fields: &[&[u8]]) -> u8
    ensures { IsWrongAt (map (λ field. field.now) fields.now) result }
{
    let mut most = 0;
    for forms in record_rows() {
        most = most.max(allowed_front(forms, fields));
    }
    most as u8 + 1
}

// How many fields have the forms, one after another.
fn allowed_front(forms: &[FieldForm], fields: &[&[u8]]) -> usize
    ensures some { HasForms forms.now (map (λ field. field.now) fields.now) result }
    ensures most { ¬ HasForms forms.now (map (λ field. field.now) fields.now) (result + 1) }
{
    let most = forms.len().min(fields.len());
    for i in 0..most {
        if !forms[i].allows(fields[i.saturating_sub(1)], fields[i]) {
            return i;
        }
    }
    most
}
