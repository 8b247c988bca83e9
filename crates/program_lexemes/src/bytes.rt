//! The forms of texts, and the bytes that stand between lexemes or begin a name of a core text.
ghost use Rattle.std.specs.Prelude.{◌≡◌};
ghost use Rattle.program_lexemes.specs.Forms.{is_dollar, is_white};

/// The form of a text: of a program as it is written, or of a core program as it is printed, where a dollar and one to
/// nine digits are a name as well.
#[derive(Clone, Copy, Debug, PartialEq, Eq)]
pub enum TextForm {
    Program,
    Core,
}

/// Whether the byte is white space.
pub fn is_white(byte: u8) -> bool
    ensures { result ≡ is_white byte }
{
    matches!(byte, b' ' | b'\t' | b'\r' | b'\n')
}

/// Whether a name of a text of this form may begin with the byte, and then go on with digits alone.
pub fn is_dollar(form: TextForm, byte: u8) -> bool
    ensures { result ≡ is_dollar form byte }
{
    match form {
        TextForm::Program => false,
        TextForm::Core => byte == b'$',
    }
}
