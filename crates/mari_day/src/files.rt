//! The market files of a folder.

ghost use Rattle.std.specs.Prelude.{◌≡◌, ◌<◌, IfOk, string_bytes};
ghost use Rattle.mari_day.specs.Files.{IsFileNumber, IsNamed, file_named, file_number, file_with, name_of, path_in as path_to, place_of};

use mari_units::Memory;
use std::alloc::Global;

/// A market file, in the order in which the files are fetched and read.
#[derive(Clone, Copy, Debug, PartialEq, Eq)]
pub enum File {
    /// day.csv
    Day,
    /// zones.csv
    Zones,
    /// borders.csv
    Borders,
    /// bids.csv
    Bids,
    /// links.csv
    Links,
    /// runs.csv
    Runs,
    /// demands.csv
    Demands,
    /// limits.csv
    Limits,
}

/// The files that every folder has, in their order. `Limits` stands after them where the borders state no limits.
pub const FILES: [File; 7] = [
    File::Day,
    File::Zones,
    File::Borders,
    File::Bids,
    File::Links,
    File::Runs,
    File::Demands,
];

/// The number of the publication among the files of a folder. It is no market file.
pub const PUBLICATION: u8 = 8;

/// The number of blocks.csv, of blocks of bids over several quarter hours. Only the command that clears these reads it,
/// so it is no market file.
pub const BLOCKS: u8 = 10;

impl File {
    /// The file's name in its folder.
    pub fn name(self) -> &'static str
        ensures { result.now ≡ name_of self }
    {
        match self {
            File::Day => "day.csv",
            File::Zones => "zones.csv",
            File::Borders => "borders.csv",
            File::Bids => "bids.csv",
            File::Links => "links.csv",
            File::Runs => "runs.csv",
            File::Demands => "demands.csv",
            File::Limits => "limits.csv",
        }
    }

    /// The file's place among those of its folder, from 0.
    pub fn place(self) -> usize
        ensures place { result ≡ place_of self }
        ensures within { result < 8 }
    {
        match self {
            File::Day => 0,
            File::Zones => 1,
            File::Borders => 2,
            File::Bids => 3,
            File::Links => 4,
            File::Runs => 5,
            File::Demands => 6,
            File::Limits => 7,
        }
    }

    /// The number by which the file is named, from 1: `PUBLICATION` is left out.
    pub fn number(self) -> u8
        ensures number { result ≡ file_number self }
        ensures within { IsFileNumber result }
    {
        match self {
            File::Limits => 9,
            _ => self.place() as u8 + 1,
        }
    }

    /// The market file of a number, if it is that of one.
    /// A table of its own beside `number`; the definitions have one, so the two can't differ.
    pub fn with_number(number: u8) -> Option<File>
        ensures { result ≡ file_with number }
    {
        match number {
            1 => Some(File::Day),
            2 => Some(File::Zones),
            3 => Some(File::Borders),
            4 => Some(File::Bids),
            5 => Some(File::Links),
            6 => Some(File::Runs),
            7 => Some(File::Demands),
            9 => Some(File::Limits),
            _ => None,
        }
    }
}

/// The path in a folder of the file of this name.
pub fn path_in(alloc: Global, folder: &str, name: &str) -> Result<String, Memory>
    ensures { IfOk result (λ path. string_bytes path ≡ path_to folder.now name.now) }
{
    let path = format!(in alloc; "{folder}/{name}")?;
    Ok(path)
}

/// The name of the file of a number, from 1: of a market file, of the publication, or of the blocks.
pub fn file_name(number: u8) -> &'static str
    requires { IsNamed number }
    ensures { result.now ≡ file_named number }
{
    if number == BLOCKS {
        return "blocks.csv";
    }
    match File::with_number(number) {
        Some(file) => file.name(),
        None => "publication.txt",
    }
}
