//! Words of a command line that are refused.

ghost use Rattle.std.specs.Prelude.{◌≡◌, find, map, option_map};
ghost use Rattle.std.specs.List.{list_all, list_any};
ghost use Rattle.rv_asm_statements.specs.Walk.{beside, first_given};
ghost use Rattle.rvmc_hints.specs.Near.{is_near};
ghost use Rattle.rvmc_hints.specs.Rows.{form_view};
ghost use Rattle.rvmc_hints.specs.Words.{command_near, form_of, is_file_byte, is_file_name, is_mark, is_rank_option};

use crate::near::is_near;

/// Whether a byte may stand in the name of a file that a shell takes as it is.
fn is_file_byte(byte: u8) -> bool
    ensures { result ≡ is_file_byte byte }
{
    byte.is_ascii_alphanumeric() || byte == b'_' || byte == b'.' || byte == b'/' || byte == b'-'
}

fn are_file_bytes(bytes: &[u8]) -> bool
    ensures { result ≡ list_all is_file_byte bytes.now }
{
    bytes.iter().all(|byte| is_file_byte(*byte))
}

fn is_mark(byte: u8) -> bool
    ensures { result ≡ is_mark byte }
{
    byte == b'.' || byte == b'/'
}

fn has_mark(bytes: &[u8]) -> bool
    ensures { result ≡ list_any is_mark bytes.now }
{
    bytes.iter().any(|byte| is_mark(*byte))
}

/// Whether a word looks like the name of a file: letters, digits, `_`, `.`, `/` and `-`, of which a `.` or a `/` stands
/// there, and the first is no `-`.
pub fn is_file_name(word: &str) -> bool
    ensures { result ≡ is_file_name word.now }
{
    let bytes = word.as_bytes();
    are_file_bytes(bytes) && has_mark(bytes) && !matches!(bytes, [b'-', ..])
}

/// What stands before the `=` of a word of `debug`, and the word's right form.
pub struct WordForm {
    pub head: &'static [u8],
    pub form: &'static str,
}

/// The table of forms, one line a form.
macro_rules! forms {
    ($($head:literal $form:literal;)*) => {
        [$(WordForm { head: $head, form: $form }),*]
    };
}

static FORMS: [WordForm; 10] = forms! {
    b"go" "go=N, as go=2";
    b"step" "step stands alone";
    b"back" "back stands alone";
    b"run" "run stands alone";
    b"place" "place stands alone";
    b"break" "break=R,H,PC, break=R,H,NAME or break=R,H,FILE:LINE, as break=0,0,0x18";
    b"regs" "regs=R,H, as regs=0,0";
    b"frames" "frames=R,H, as frames=0,0";
    b"output" "output=R, as output=0";
    b"bytes" "bytes=R,A,N, bytes=R,NAME,N or bytes=R,FILE:LINE,N, as bytes=0,0xfff8,4";
};

fn form_in(table: &[WordForm], head: &[u8]) -> Option<&'static str>
    ensures { option_map (λ form. form.now) result ≡ first_given (beside head.now) (map form_view table.now) }
{
    for row in table {
        if row.head == head {
            return Some(row.form);
        }
    }
    None
}

/// The right form of the word of `debug` that begins so.
pub fn form_of(head: &[u8]) -> Option<&'static str>
    ensures { option_map (λ form. form.now) result ≡ form_of head.now }
{
    form_in(&FORMS, head)
}

static COMMANDS: [&str; 13] = [
    "asm", "dis", "run", "one", "check", "report", "list", "draw", "page", "debug", "gdb", "why",
    "explore",
];

fn near_in(names: &[&'static str], word: &str) -> Option<&'static str>
    ensures { option_map (λ name. name.now) result
        ≡ find (λ name. is_near name word.now) (map (λ name. name.now) names.now) }
{
    for name in names {
        if is_near(name.as_bytes(), word.as_bytes()) {
            return Some(name);
        }
    }
    None
}

/// The first command, in the order of help, whose name is this word but for one slip.
pub fn command_near(word: &str) -> Option<&'static str>
    ensures { option_map (λ name. name.now) result ≡ command_near word.now }
{
    near_in(&COMMANDS, word)
}

/// Whether a word is the option by which other programs are told how many ranks there are to be.
pub fn is_rank_option(word: &str) -> bool
    ensures { result ≡ is_rank_option word.now }
{
    word == "-n" || word == "-np" || word == "--ranks"
}
