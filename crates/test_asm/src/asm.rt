//! Of `rv_asm`: small sources, whose meaning `assemble` answers.

ghost use Rattle.test_asm.specs.Sources.{DataStand, EndIsKept, EntriesStand, FaultsAreTold, GoHasItsBytes};
ghost use Rattle.test_asm.specs.Sources.{LongNamesAreRefused, OneMoreIsRefused, SymbolsStand, TextsStand};

/// Instructions have the words of GNU as, at the limits of their numbers too.
pub fn texts_stand()
    ensures { TextsStand }
{}

/// Data has its bytes, the lowest first, and labels of the data have the addresses where they are loaded.
pub fn data_stand()
    ensures { DataStand }
{}

/// Each of these sources has the fault that stands beside it, in the line that stands beside it.
pub fn faults_are_told()
    ensures { FaultsAreTold }
{}

/// Harts begin at `_start`, or where `.entry` says.
pub fn entries_stand()
    ensures { EntriesStand }
{}

/// The labels of `.globl` are symbols: each once, in byte order, with its address.
pub fn symbols_stand()
    ensures { SymbolsStand }
{}

/// Two lines with a symbol are the 39 bytes of their image in version 2.
pub fn go_has_its_bytes()
    ensures { GoHasItsBytes }
{}

/// A symbol may stand at the very end of the memory.
pub fn the_end_is_kept()
    ensures { EndIsKept }
{}

/// A name of 32 bytes is Directive, however many names there are.
pub fn long_names_are_refused()
    ensures { LongNamesAreRefused }
{}

/// The 1,025th name is Limit, whatever labels there are.
pub fn one_more_is_refused()
    ensures { OneMoreIsRefused }
{}
