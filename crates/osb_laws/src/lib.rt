//! What holds of every step of the machine, over only its definitions.
#![tactic(auto)]

ghost use Rattle.osb_laws.specs.Exclusive.{StepsAreAllowed, StepsKeepLives, LivesStep, ChangesKeepLives, NoLivesAreWellFormed, ListsOnce};
ghost use Rattle.osb_laws.specs.Statuses.{StatusesSay, ErrorsChangeNothing, PollsSay, BindingPollsSay, StatesShow, NamesFind, GoneIsAbsent, GoneBindingIsAbsent};
ghost use Rattle.osb_laws.specs.AskedAgain.{AskedAgainStays};
ghost use Rattle.osb_laws.specs.OpenedStays.{OpenedStays, CreatedOnce, BoundOnce};
ghost use Rattle.osb_laws.specs.Reported.{ReportedOnce};
ghost use Rattle.osb_laws.specs.Bodies.{BodiesAreObjects, ErrorsAreObjects, CatalogsAreObjects};
ghost use Rattle.osb_laws.specs.Failures.{NoAnswerIs500};
ghost use Rattle.osb_laws.specs.Apart.{AnsweredByOneLife, OthersStay, UnnamedStay};

/// From well-formed lives each step makes a change that may be made, so well-formed lives stay well
/// formed: an order is opened only where none runs, and only the running last order is ended. Each
/// life stays, has one order more, or its last order has ended. Any change that may be made keeps
/// lives well formed, and no lives are well formed. A listing has each instance at most once.
///
/// The settings are sound, and ids and objects of the ask are texts of their kind, as they are
/// where settings and requests are read.
pub fn exclusive()
    ensures allowed { StepsAreAllowed }
    ensures kept { StepsKeepLives }
    ensures steps { LivesStep }
    ensures changes { ChangesKeepLives }
    ensures none { NoLivesAreWellFormed }
    ensures listed { ListsOnce }
{}

/// What a status says of the instance that the ask names, from well-formed lives. 201: it is a
/// creation or a binding that was carried out at once. 202: the last order of the instance runs, and
/// the body names it. 200: nothing was changed, or an order was carried out at once, or one was
/// reported. Any other: nothing was changed, from any lives.
///
/// A poll that is answered 200 says how far the order is that its operation names, or without one the
/// last, and its body says one state. A poll that names what a 202 named is about that order. One
/// that is answered 410 is about a deletion or an unbinding that succeeded; where it names no
/// operation, the instance or the binding isn't there.
pub fn statuses()
    ensures says { StatusesSay }
    ensures errors { ErrorsChangeNothing }
    ensures polls { PollsSay }
    ensures binding_polls { BindingPollsSay }
    ensures states { StatesShow }
    ensures names { NamesFind }
    ensures gone { GoneIsAbsent }
    ensures binding_gone { GoneBindingIsAbsent }
{}

/// An ask whose step was taken changes nothing when it is asked again at once.
pub fn asked_again()
    ensures { AskedAgainStays }
{}

/// While the order that an ask opened is the last one of its instance and hasn't failed, the ask
/// changes nothing. So an ask that is made again and again, while its order is reported as succeeded
/// and whatever else leaves the life of its instance, acts once (`reported`). An instance that is
/// there isn't created again, nor is a binding bound again.
pub fn opened_stays()
    ensures opened { OpenedStays }
    ensures reported { ReportedOnce }
    ensures created { CreatedOnce }
    ensures bound { BoundOnce }
{}

/// An ask that names an instance is answered by only the life of that instance, and leaves every
/// other life; one that names none leaves all.
pub fn apart()
    ensures answers { AnsweredByOneLife }
    ensures others { OthersStay }
    ensures unnamed { UnnamedStay }
{}

/// No ask is answered with the status 500: it says that memory or the store was refused, and the
/// table refuses nothing so.
pub fn never_500()
    ensures { NoAnswerIs500 }
{}

/// The body of each answer is a JSON object (RFC 8259, section 4), from well-formed lives, by sound
/// settings whose catalog is one. So is that of each error, and the catalog of each settings file.
pub fn bodies()
    ensures objects { BodiesAreObjects }
    ensures errors { ErrorsAreObjects }
    ensures catalogs { CatalogsAreObjects }
{}
