//! What trimming erases and what stays: laws over only the definitions.

ghost use Rattle.osb_trim.specs.Erased.{OutcomesStay, AttributesAreGone, DeletedOrdersAreErased, OtherOrdersStay, OrdersBeforeBirthAreErased};
ghost use Rattle.osb_trim.specs.Erased.{EachLifeIsTrimmed, EntriesAreTrimmed, TrimmedLifeIsWhole, TrimmedLivesAreWhole};
ghost use Rattle.osb_trim.specs.Erased.{TrimmedLifeStays, TrimmedLivesStay, CountsWhatChanges};
ghost use Rattle.osb_trim.specs.Stays.{AnswerStays, StepStays, AnswersStay, PlansStay};

/// An erased order has its number, its kind, its binding and its outcome, and says nothing else. Each
/// order up to the last succeeded deletion is erased, and all other orders stay. So of a well-formed
/// life exactly the orders before the present birth are erased, and all if the instance is absent.
pub fn erases()
    ensures kept { OutcomesStay }
    ensures gone { AttributesAreGone }
    ensures deleted { DeletedOrdersAreErased }
    ensures others { OtherOrdersStay }
    ensures born { OrdersBeforeBirthAreErased }
{}

/// Each life of lives is trimmed by itself, and stays well formed.
pub fn trimmed_is_whole()
    ensures each { EachLifeIsTrimmed }
    ensures entries { EntriesAreTrimmed }
    ensures life { TrimmedLifeIsWhole }
    ensures lives { TrimmedLivesAreWhole }
{}

/// What is trimmed already stays as it is, and no order of it counts.
pub fn trims_once()
    ensures life { TrimmedLifeStays }
    ensures lives { TrimmedLivesStay }
    ensures count { CountsWhatChanges }
{}

/// No answer changes. Trimmed lives answer an ask as the lives do, and do the same with it. From
/// well-formed lives so does each later ask, one after the other, for ever. A start finds the same plans
/// in use.
pub fn answers_stay()
    ensures answer { AnswerStays }
    ensures step { StepStays }
    ensures answers { AnswersStay }
    ensures plans { PlansStay }
{}
