//! What a command is given by a folder: sources and sinks in memory, which may fail.
ghost use Rattle.std.specs.Prelude.{◌≡◌, ◌<◌, Some, length, nat_le, option_map, take};
ghost use Rattle.tsn_rows.specs.Folder.{Holds, IsFresh, IsOpened, bytes_in, input_name};

use crate::folder::Folder;
use std::alloc::Global;
use std::io::{Error, ErrorKind};
use tsn_device::device::{Broken, Sink, Source};
use tsn_device::{Action, Failure};
use tsn_memory::{MemorySink, MemorySource, NEVER};
use tsn_outcome::{Given, Made, Opened};

// The file that stands for standard input, which the network `-` is read from.
const STANDARD_INPUT: &str = "stdin";

/// What a command reads from or writes to, in the order in which it does.
#[derive(Clone, Copy, PartialEq, Eq)]
pub enum Device {
    Network,
    Plan,
    Cert,
    PlanFile,
    CertFile,
    Output,
}

/// How the devices of a command work: how many bytes a call moves at most, and which one fails, after so many good calls.
#[derive(Clone, Copy)]
pub enum Devices {
    /// A thousand bytes a call, and none fails.
    Good,
    /// A byte a call, and none fails.
    Slow,
    /// A byte a call; one fails once.
    Failing(Device, u64),
}

impl Devices {
    fn piece(self) -> usize
        ensures { 0 < result }
    {
        match self {
            Devices::Good => 1000,
            Devices::Slow => 1,
            Devices::Failing(_, _) => 1,
        }
    }

    // After how many good calls a device fails.
    fn good_calls(self, device: Device) -> u64 {
        match self {
            Devices::Failing(failing, good_calls) if failing == device => good_calls,
            _ => NEVER,
        }
    }
}

/// What a command came to.
#[derive(Drop, PartialEq, Eq)]
pub struct RunResult {
    pub status: u8,
    pub output: Vec<u8>,
    /// What was written of the plan and the certificate.
    pub plan: Vec<u8>,
    pub cert: Vec<u8>,
    /// What was told on standard error: the lines, each behind the program's name.
    pub told: String,
}

/// A file of a folder, which is read.
#[derive(Drop)]
pub struct FolderSource<'a> {
    name: &'a str,
    source: MemorySource<'a>,
}

impl Source for FolderSource<'_> {
    ghost given = { λ s. Some (take s.source.position s.source.bytes.now) };

    ghost is_at_end = { λ s. nat_le (length s.source.bytes.now) s.source.position };

    ghost failed = { λ s. s.source.failures };

    fn read(&mut self, buffer: &mut [u8]) -> Result<usize, Broken> {
        self.source.read(buffer)
    }

    fn failures(&self) -> u64 {
        self.source.failures
    }

    fn name(&self) -> &str {
        self.name
    }
}

impl Opened for FolderSource<'_> {
    fn failure(&self) -> Option<Failure<'_>> {
        failure_of(self.name, Action::Read, self.source.failures)
    }

    fn count(&self) -> usize {
        self.source.position
    }
}

/// A sink in memory.
#[derive(Drop)]
pub struct FolderSink {
    sink: MemorySink,
    name: &'static str,
}

impl Sink for FolderSink {
    ghost taken = { λ s. Some s.sink.bytes.items };

    ghost failed = { λ s. s.sink.failures };

    fn write(&mut self, bytes: &[u8]) -> Result<usize, Broken> {
        self.sink.write(bytes)
    }

    fn end(&mut self) -> Result<(), Broken> {
        self.sink.end()
    }

    fn failures(&self) -> u64 {
        self.sink.failures
    }
}

impl Made for FolderSink {
    fn failure(&self) -> Option<Failure<'_>> {
        failure_of(self.name, Action::Write, self.sink.failures)
    }
}

// Why the device of this name failed, if it did.
fn failure_of(name: &str, action: Action, failures: u64) -> Option<Failure<'_>> {
    if failures == 0 {
        return None;
    }
    Some(Failure {
        name,
        action,
        cause: Error::from(ErrorKind::Other),
    })
}

/// The files of a folder, over devices that work like this, and what was written and told so far.
#[derive(Drop)]
pub struct FolderDevices<'a> {
    alloc: Global,
    folder: &'a Folder,
    devices: Devices,
    output: Vec<u8>,
    plan: Vec<u8>,
    cert: Vec<u8>,
    told: String,
}

impl<'a> FolderDevices<'a> {
    /// Nothing is written or told.
    pub fn new(alloc: Global, folder: &'a Folder, devices: Devices) -> FolderDevices<'a> {
        FolderDevices {
            alloc,
            folder,
            devices,
            output: Vec::new(alloc),
            plan: Vec::new(alloc),
            cert: Vec::new(alloc),
            told: String::new(alloc),
        }
    }

    /// What a command came to that ended with this status.
    pub fn into_outcome(self, status: u8) -> RunResult {
        RunResult {
            status,
            output: self.output,
            plan: self.plan,
            cert: self.cert,
            told: self.told,
        }
    }

    // A source of a file, which fails at its first read where there is none of that name.
    fn source(&self, word: &'a str, name: &'a str, device: Device) -> FolderSource<'a>
        ensures { IsOpened self.now.folder.now.files.items name.now result.source }
    {
        let piece = self.devices.piece();
        let bytes = self.folder.bytes(name);
        let source = source_of(bytes, piece, self.devices.good_calls(device));
        FolderSource { name: word, source }
    }

    // A sink to which nothing was written.
    fn sink(&self, name: &'static str, device: Device) -> FolderSink
        ensures { IsFresh result.sink }
    {
        let piece = self.devices.piece();
        let sink = MemorySink::new(self.alloc, piece, self.devices.good_calls(device));
        FolderSink { sink, name }
    }
}

// The file that a network's word names.
fn input_name(word: &str) -> &str
    ensures { result.now ≡ input_name word.now }
{
    if word == "-" { STANDARD_INPUT } else { word }
}

// A source of these bytes; one whose first read fails, where there are none.
fn source_of(bytes: Option<&[u8]>, piece: usize, good_calls: u64) -> MemorySource<'_>
    requires { 0 < piece }
    ensures holds { Holds (option_map (λ bytes. bytes.now) bytes.entry) result }
    ensures position { result.position ≡ 0 }
    ensures failures { result.failures ≡ 0 }
{
    match bytes {
        Some(bytes) => MemorySource::new(bytes, piece, good_calls),
        None => MemorySource::new(&[], piece, 0),
    }
}

impl<'a> Given<'a> for FolderDevices<'a> {
    type Source = FolderSource<'a>;

    type File = FolderSink;

    type Output = FolderSink;

    ghost opens_network = { λ given word s. IsOpened given.folder.now.files.items (input_name word) s.source };

    ghost opens_plan = { λ given word s. IsOpened given.folder.now.files.items word s.source };

    ghost opens_cert = { λ given word s. IsOpened given.folder.now.files.items word s.source };

    ghost makes_plan = { λ _ _ s. IsFresh s.sink };

    ghost makes_cert = { λ _ _ s. IsFresh s.sink };

    fn network(&self, word: &'a str) -> FolderSource<'a> {
        self.source(word, input_name(word), Device::Network)
    }

    fn plan(&self, word: &'a str) -> FolderSource<'a> {
        self.source(word, word, Device::Plan)
    }

    fn cert(&self, word: &'a str) -> FolderSource<'a> {
        self.source(word, word, Device::Cert)
    }

    fn plan_file(&self, word: Option<&'a str>) -> Result<FolderSink, Failure<'a>> {
        Ok(self.sink("the plan", Device::PlanFile))
    }

    fn cert_file(&self, word: Option<&'a str>) -> Result<FolderSink, Failure<'a>> {
        Ok(self.sink("the certificate", Device::CertFile))
    }

    fn output(&self) -> FolderSink {
        self.sink("standard output", Device::Output)
    }

    fn close_plan(&mut self, file: FolderSink) {
        self.plan = file.sink.bytes;
    }

    fn close_cert(&mut self, file: FolderSink) {
        self.cert = file.sink.bytes;
    }

    fn close_output(&mut self, output: FolderSink) {
        self.output = output.sink.bytes;
    }

    fn tell(&mut self, line: &str) {
        if !self.told.is_empty() {
            let _ = self.told.push('\n');
        }
        let _ = self.told.push_str(line);
    }
}
