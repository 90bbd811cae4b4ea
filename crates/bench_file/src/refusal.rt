// Why a bench file is refused.
ghost use Rattle.std.specs.Prelude.{◌≡◌};
ghost use Rattle.bench_file.specs.declared.refusal.FileRefusal.TheVariants.{Naming};
ghost use Rattle.bench_file.specs.Refusals.{file_number, file_place};

use lexer::names::NamesRefusal;

/// Why a bench file is refused.
#[derive(Clone, Copy, PartialEq, Eq, Debug)]
pub enum FileRefusal {
    /// the file is too long, or that line is the first that is wrong, missing or extra
    Form { line: usize },
    /// the names line is bad
    Naming(NamesRefusal),
}

impl FileRefusal {
    /// Its number among the refused calls; that of the names line keeps its own.
    pub fn number(self) -> u8
        ensures { result ≡ file_number self }
    {
        match self {
            FileRefusal::Form { .. } => 19,
            FileRefusal::Naming(refusal) => refusal.number(),
        }
    }

    /// The line, where it names one.
    pub fn place(self) -> Option<usize>
        ensures { result ≡ file_place self }
    {
        match self {
            FileRefusal::Form { line } => Some(line),
            FileRefusal::Naming(_) => None,
        }
    }
}

impl From<NamesRefusal> for FileRefusal {
    ghost from_gives = { λ e r. r ≡ Naming e };

    fn from(bad: NamesRefusal) -> FileRefusal {
        FileRefusal::Naming(bad)
    }
}
