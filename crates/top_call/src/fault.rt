use fs_trait::SourceErr;
use ost_types::NoMemory;
use script_reader::ScriptFault;
use sys_open::OpenFault;

/// Why no lane was run, or why what came of it wasn't printed.
#[derive(Drop, Debug)]
pub enum TopFault {
    /// The words are no command line.
    Usage,
    /// The input is no script. Want of memory there is told as `TopFault::NoMemory`.
    Script(ScriptFault),
    /// The input wasn't read.
    Input,
    /// The repository isn't opened. Want of memory there is told as `TopFault::NoMemory`.
    Open(OpenFault),
    /// Memory was wanted and there was none.
    NoMemory,
}

impl From<NoMemory> for TopFault {
    ghost use Rattle.std.specs.Prelude.{◌≡◌};
    ghost use Rattle.top_call.specs.declared.fault.TopFault.TheVariants as variant;

    ghost from_gives = { λ _ e. e ≡ variant.NoMemory };

    fn from(_: NoMemory) -> TopFault {
        TopFault::NoMemory
    }
}

impl From<SourceErr> for TopFault {
    ghost use Rattle.std.specs.Prelude.{◌≡◌};
    ghost use Rattle.top_call.specs.declared.fault.TopFault.TheVariants as variant;

    ghost from_gives = { λ _ e. e ≡ variant.Input };

    fn from(_: SourceErr) -> TopFault {
        TopFault::Input
    }
}
