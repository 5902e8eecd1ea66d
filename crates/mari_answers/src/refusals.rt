//! The names of the checks by which a file may be refused, which are those of its readers.

ghost use Rattle.std.specs.Prelude.{◌≡◌, ◌≢◌, [], Some, option_map};
ghost use Rattle.mari_answers.specs.Refusals.{border_name as border_named, check_name as check_named, name_among as named_among, name_or_joint as named_or_joint, own_name as own_named, HasName};

use crate::checks::{MigrationCheck, TextCheck};
use mari_bids::BidCheck;
use mari_blocks::{BlockCheck, JointCheck};
use mari_day::{BLOCKS, DateCheck, File, PUBLICATION};
use mari_demands::{DemandCheck, LimitCheck, RunCheck};
use mari_links::LinkCheck;
use mari_rows::{FileCheck, RowCheck};
use mari_units::Refusal;
use mari_zones::{BorderCheck, ZoneCheck};

/// The name of the check of a number, where one of these has it.
fn name_among<C: FileCheck>(checks: &[C], number: u8) -> Option<&'static str>
    ensures { option_map (λ name. name.now) result ≡ named_among C.number C.name checks.now number }
{
    match checks.iter().find(|check| check.entry().0 == number) {
        Some(check) => Some(check.entry().1),
        None => None,
    }
}

/// The name of a check of borders.csv.
fn border_name(number: u8) -> Option<&'static str>
    ensures { option_map (λ name. name.now) result ≡ border_named number }
{
    match name_among(BorderCheck::ALL, number) {
        Some(name) => Some(name),
        None => name_among(MigrationCheck::ALL, number),
    }
}

/// A name, or that of a check of what can't be one market where it has this number.
fn name_or_joint(own: Option<&'static str>, check: JointCheck, number: u8) -> Option<&'static str>
    ensures { option_map (λ name. name.now) result ≡ named_or_joint (option_map (λ name. name.now) own.entry) check number }
{
    match own {
        Some(name) => Some(name),
        None => name_among(&[check], number),
    }
}

/// The name of a check of one file of its own, by the file's number from 1.
fn own_name(file: u8, number: u8) -> Option<&'static str>
    ensures { option_map (λ name. name.now) result ≡ own_named file number }
{
    if file == PUBLICATION {
        return name_among(TextCheck::ALL, number);
    }
    if file == BLOCKS {
        return name_or_joint(
            name_among(BlockCheck::ALL, number),
            JointCheck::TooLarge,
            number,
        );
    }
    match File::with_number(file) {
        Some(File::Day) => name_among(DateCheck::ALL, number),
        Some(File::Zones) => name_among(ZoneCheck::ALL, number),
        Some(File::Borders) => border_name(number),
        Some(File::Bids) => name_among(BidCheck::ALL, number),
        Some(File::Links) => name_or_joint(
            name_among(LinkCheck::ALL, number),
            JointCheck::AcrossQuarters,
            number,
        ),
        Some(File::Runs) => name_or_joint(
            name_among(RunCheck::ALL, number),
            JointCheck::NoScheduled,
            number,
        ),
        Some(File::Demands) => name_among(DemandCheck::ALL, number),
        Some(File::Limits) => name_among(LimitCheck::ALL, number),
        None => None,
    }
}

/// The name of the check by which a file is refused.
#[tactic(auto, unfolding(crate::specs::Refusals::check_name))]
pub fn check_name(refusal: Refusal) -> &'static str
    requires { HasName refusal }
    ensures name { check_named refusal.file refusal.number ≡ Some result.now }
    ensures some { result.now ≢ [] }
{
    if let Some(name) = name_among(RowCheck::ALL, refusal.number) {
        return name;
    }
    match own_name(refusal.file, refusal.number) {
        Some(name) => name,
        None => unreachable!(),
    }
}
