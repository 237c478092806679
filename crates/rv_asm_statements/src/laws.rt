//! Laws of the definitions, in the subject's own words. The functions do nothing; their clauses are the laws.

ghost use Rattle.rv_asm_statements.specs.Filling.{RowsAreFilled};
ghost use Rattle.rv_asm_statements.specs.Kinds.{ShapesTakeKinds};
ghost use Rattle.rv_asm_statements.specs.Written.{OperandsAreWritten};

/// Each mnemonic takes just the operands that its instruction has: a register of it is that of the operand at its
/// place, its number is the last operand's, and no operand is left over.
pub fn rows_are_filled()
    ensures { RowsAreFilled }
{}

/// The tokens behind a mnemonic or a directive have operands exactly where they are these, written with a comma between
/// each two, and nothing else.
pub fn operands_are_written()
    ensures { OperandsAreWritten }
{}

/// A mnemonic takes operands exactly where there are as many as its shape says, each of its kind: so none is refused that
/// the language has.
pub fn shapes_take_kinds()
    ensures { ShapesTakeKinds }
{}
