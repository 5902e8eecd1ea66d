//! The first words of lines.

ghost use Rattle.std.specs.Prelude.{◌≡◌, MatchOption};
ghost use Rattle.mari_lines.specs.Spelling.{keyword_text};
ghost use Rattle.mari_lines.specs.declared.line.Keyword.{Keyword as KeywordValue};

use crate::line::Keyword;

/// All keywords, those of which a text may have many lines first.
const KEYWORDS: [Keyword; 21] = [
    Keyword::Bid,
    Keyword::Provider,
    Keyword::Demand,
    Keyword::Branch,
    Keyword::Bound,
    Keyword::Zone,
    Keyword::Border,
    Keyword::Operator,
    Keyword::Conflict,
    Keyword::At,
    Keyword::Flows,
    Keyword::Mws,
    Keyword::Cut,
    Keyword::Run,
    Keyword::Welfare,
    Keyword::Tree,
    Keyword::End,
    Keyword::Mari,
    Keyword::TotalOperator,
    Keyword::TotalProvider,
    Keyword::Done,
];

impl Keyword {
    /// How it is written.
    fn text(self) -> &'static [u8]
        ensures { result.now ≡ keyword_text self }
    {
        match self {
            Keyword::Mari => b"mari",
            Keyword::Run => b"run",
            Keyword::Welfare => b"welfare",
            Keyword::Zone => b"zone",
            Keyword::Border => b"border",
            Keyword::Bid => b"bid",
            Keyword::Demand => b"demand",
            Keyword::Tree => b"tree",
            Keyword::Branch => b"branch",
            Keyword::Bound => b"bound",
            Keyword::Cut => b"cut",
            Keyword::Conflict => b"conflict",
            Keyword::At => b"at",
            Keyword::Flows => b"flows",
            Keyword::Mws => b"mws",
            Keyword::Operator => b"operator",
            Keyword::Provider => b"provider",
            Keyword::End => b"end",
            Keyword::TotalOperator => b"total-operator",
            Keyword::TotalProvider => b"total-provider",
            Keyword::Done => b"done",
        }
    }
}

/// The keyword that is written so.
pub fn keyword_of(text: &[u8]) -> Option<Keyword>
    ensures { MatchOption result ((keyword : KeywordValue) → keyword_text keyword ≡ text.now → ⊥) (λ keyword. keyword_text keyword ≡ text.now) }
{
    for keyword in KEYWORDS {
        if keyword.text() == text {
            return Some(keyword);
        }
    }
    None
}
