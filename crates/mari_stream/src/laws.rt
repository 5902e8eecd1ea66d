//! That a text of a form has one answer.

ghost use Rattle.std.specs.Prelude.{◌≡◌, ℕ, List};
ghost use Rattle.mari_publish.specs.declared.fault.TextFault.{TextFault};
ghost use Rattle.mari_stream.specs.Forms.{IsTextFault, IsWhole};
ghost use Rattle.mari_stream.specs.Streams.{IsReportedFault};

use crate::coming::keep_lines;
use crate::form::TextForm;

/// A text that is whole has one list of parts and no fault, also where it is a page that is read in pieces; and any other has at
/// most one first fault.
///
/// The call does nothing: its contract is the law.
pub fn texts_have_one_answer<F: TextForm>()
    ensures parts { (text : List ℕ) (parts others : List F.Part) → IsWhole F.form text parts → IsWhole F.form text others → parts ≡ others }
    ensures whole { (text : List ℕ) (parts : List F.Part) (fault : TextFault) → IsWhole F.form text parts → IsTextFault F.form text fault → ⊥ }
    ensures reported { (page : List ℕ) (parts : List F.Part) (fault : TextFault) → IsWhole F.form page parts → IsReportedFault F.form page fault → ⊥ }
    ensures fault { (text : List ℕ) (fault other : TextFault) → IsTextFault F.form text fault → IsTextFault F.form text other → fault ≡ other }
{
    keep_lines::<F>();
}
