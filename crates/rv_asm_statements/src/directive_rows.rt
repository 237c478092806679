//! The table of directives: which operands each takes, and what it is.

use crate::directives::Width;

/// What a directive is, and so which operands stand behind its name.
#[derive(Clone, Copy)]
pub enum Form {
    /// One number, within limits.
    Ranks,
    Harts,
    Memory,
    Zero,
    Align,
    /// One name.
    Entry,
    Global,
    /// One number or more.
    Comm,
    /// Two numbers.
    Link,
    /// No operand.
    Text,
    Data,
    /// One number or more; labels too where an item takes 4 bytes or 8.
    Items(Width),
    /// One string.
    String,
    /// One string, behind which a zero byte stands.
    StringAndZero,
}

/// A directive's name, which begins with a dot, and what it is.
#[derive(Clone, Copy)]
pub struct DirectiveRow {
    pub name: &'static [u8],
    pub form: Form,
}

/// The table of rows, one line a row: a name, and what it is.
macro_rules! rows {
    ($($name:literal $form:expr;)*) => {
        [$(DirectiveRow { name: $name, form: $form }),*]
    };
}

/// The rows.
pub static DIRECTIVES: [DirectiveRow; 17] = rows! {
    b".ranks" Form::Ranks;
    b".harts" Form::Harts;
    b".memory" Form::Memory;
    b".entry" Form::Entry;
    b".comm" Form::Comm;
    b".link" Form::Link;
    b".text" Form::Text;
    b".data" Form::Data;
    b".byte" Form::Items(Width::Byte);
    b".half" Form::Items(Width::Half);
    b".word" Form::Items(Width::Word);
    b".dword" Form::Items(Width::Double);
    b".ascii" Form::String;
    b".asciz" Form::StringAndZero;
    b".zero" Form::Zero;
    b".balign" Form::Align;
    b".globl" Form::Global;
};
