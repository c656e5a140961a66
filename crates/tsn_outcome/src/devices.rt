//! What a command is given: sources and sinks by its words, and whom it tells.
ghost use Rattle.std.specs.Prelude.{◌≡◌, ℕ, List, Option, IfOk, OnErr, option_map, ⊤};

use tsn_device::Failure;
use tsn_device::device::{Sink, Source};

/// A source that can say how much it gave, and why a read of it failed.
pub trait Opened: Source + Drop {
    /// Why the last read that failed did so, if one failed.
    fn failure(&self) -> Option<Failure<'_>>;

    /// How many bytes it gave.
    fn count(&self) -> usize;
}

/// A sink that can say why a write to it failed.
pub trait Made: Sink + Drop {
    /// Why the last write that failed did so, if one failed.
    fn failure(&self) -> Option<Failure<'_>>;
}

/// What a command is given: the files that its words name, standard input, standard output and standard error.
pub trait Given<'a> {
    type Source: Opened;

    type File: Made;

    type Output: Made;

    /// Whether this source is of the network that a word names, and nothing of it was read.
    ghost opens_network: { Self → List ℕ → Self.Source → Type 0 };

    /// Whether it is of the plan that a word names.
    ghost opens_plan: { Self → List ℕ → Self.Source → Type 0 };

    /// Whether it is of the certificate that a word names.
    ghost opens_cert: { Self → List ℕ → Self.Source → Type 0 };

    /// Whether this sink is of the file that a word names for a plan, if one does, and nothing was written to it.
    ghost makes_plan: { Self → Option (List ℕ) → Self.File → Type 0 };

    /// Whether it is of the file that a word names for a certificate.
    ghost makes_cert: { Self → Option (List ℕ) → Self.File → Type 0 };

    /// Whether the file that a word names for a plan, if one does, can't be made.
    ghost refuses_plan: { Self → Option (List ℕ) → Type 0 } = { λ _ _. ⊤ };

    /// Whether the file that a word names for a certificate can't be made.
    ghost refuses_cert: { Self → Option (List ℕ) → Type 0 } = { λ _ _. ⊤ };

    /// Whether this sink is standard output, as it is now.
    ghost is_output: { Self → Self.Output → Type 0 } = { λ _ _. ⊤ };

    /// The network that a word names; `-` is standard input.
    fn network(&self, word: &'a str) -> Self::Source
        ensures opened { opens_network self.now word.now result }
        ensures failures { Self.Source.failed result ≡ 0 };

    /// The plan that a word names.
    fn plan(&self, word: &'a str) -> Self::Source
        ensures opened { opens_plan self.now word.now result }
        ensures failures { Self.Source.failed result ≡ 0 };

    /// The certificate that a word names.
    fn cert(&self, word: &'a str) -> Self::Source
        ensures opened { opens_cert self.now word.now result }
        ensures failures { Self.Source.failed result ≡ 0 };

    /// What a plan is written to, where a word names it; else what is written is dropped. The error says why it can't be written.
    fn plan_file(&self, word: Option<&'a str>) -> Result<Self::File, Failure<'a>>
        ensures made { IfOk result (λ file. makes_plan self.now (option_map (λ path. path.now) word.entry) file) }
        ensures failures { IfOk result (λ file. Self.File.failed file ≡ 0) }
        ensures refused { OnErr result (refuses_plan self.now (option_map (λ path. path.now) word.entry)) };

    /// What a certificate is written to.
    fn cert_file(&self, word: Option<&'a str>) -> Result<Self::File, Failure<'a>>
        ensures made { IfOk result (λ file. makes_cert self.now (option_map (λ path. path.now) word.entry) file) }
        ensures failures { IfOk result (λ file. Self.File.failed file ≡ 0) }
        ensures refused { OnErr result (refuses_cert self.now (option_map (λ path. path.now) word.entry)) };

    /// Standard output.
    fn output(&self) -> Self::Output
        ensures opened { is_output self.now result }
        ensures failures { Self.Output.failed result ≡ 0 };

    /// Takes back what a plan was written to.
    fn close_plan(&mut self, file: Self::File);

    /// Takes back what a certificate was written to.
    fn close_cert(&mut self, file: Self::File);

    /// Takes back standard output.
    fn close_output(&mut self, output: Self::Output)
        ensures { is_output self.new output };

    /// Tells a line on standard error, behind the program's name. That it can't be told there ends no run.
    fn tell(&mut self, line: &str);
}
