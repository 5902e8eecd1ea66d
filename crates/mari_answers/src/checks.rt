//! The checks of the program's own: of a publication's text, and of a folder that is migrated.

ghost use Rattle.mari_answers.specs.Checks.{migration_check_name, migration_check_number, text_check_name, text_check_number};

use mari_rows::FileCheck;

/// A check of a publication's text.
#[derive(Clone, Copy, Debug, PartialEq, Eq)]
pub enum TextCheck {
    /// A line has no form that a day has.
    BadLine,
    /// A line has a form, but can't stand where it stands.
    BadOrder,
    /// The text is cut off.
    Truncated,
}

impl FileCheck for TextCheck {
    const ALL: &'static [Self] = &[
        TextCheck::BadLine,
        TextCheck::BadOrder,
        TextCheck::Truncated,
    ];

    ghost number = { text_check_number };

    ghost name = { text_check_name };

    #[tactic(auto, unfolding(crate::specs::Checks::text_check_name))]
    fn entry(self) -> (u8, &'static str) {
        match self {
            TextCheck::BadLine => (11, "BadLine"),
            TextCheck::BadOrder => (12, "BadOrder"),
            TextCheck::Truncated => (13, "Truncated"),
        }
    }
}

/// A check of a folder that is migrated. It is reported of borders.csv, beside the checks of that file.
#[derive(Clone, Copy, Debug, PartialEq, Eq)]
pub enum MigrationCheck {
    /// The borders leave their limits to limits.csv already.
    AlreadyTwo,
}

impl FileCheck for MigrationCheck {
    const ALL: &'static [Self] = &[MigrationCheck::AlreadyTwo];

    ghost number = { migration_check_number };

    ghost name = { migration_check_name };

    #[tactic(auto, unfolding(crate::specs::Checks::migration_check_name))]
    fn entry(self) -> (u8, &'static str) {
        match self {
            MigrationCheck::AlreadyTwo => (17, "AlreadyTwo"),
        }
    }
}
