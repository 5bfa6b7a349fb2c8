// Fields of ten columns (RULES S2, S3 and S9): empty, a number behind spaces, or neither.
#![tactic(auto)]

ghost use Rattle.std.specs.Prelude.{◌≡◌};
ghost use Rattle.sheet_fields.specs.Fields.{drop_spaces, field_of};

// What ten columns are read as (RULES S2 and S3): nothing, a number, or neither.
#[derive(Clone, Copy)]
pub enum Field {
    Empty,
    Filled(u32),
    Misprinted,
}

// The part of a field behind its leading spaces.
fn after_spaces(field: &[u8]) -> &[u8]
    ensures { result.now ≡ drop_spaces field.now }
{
    for (i, &c) in field.iter().enumerate() {
        if c != b' ' {
            return &field[i..];
        }
    }
    b""
}

// What a field is read as.
pub fn read_field(field: &[u8]) -> Field
    ensures { result ≡ field_of field.now }
{
    let digits = after_spaces(field);
    if digits.len() == 0 {
        return Field::Empty;
    }
    match decimal::read_number(digits) {
        Some(x) => Field::Filled(x),
        None => Field::Misprinted,
    }
}
