//! The law of lines that name no files, with no code: the function's contract is the law.

ghost use Rattle.rvmc_cli.specs.Naming.{NamingLaw};

/// Words of which none is `-o` or looks like a file's name are left as they are, and name nothing.
pub fn naming_law()
    ensures { NamingLaw }
{}
