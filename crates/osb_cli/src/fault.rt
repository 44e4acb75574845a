//! Why a command ends with another status than 0.

ghost use Rattle.std.specs.Prelude.{◌≡◌, ◌≤◌, ◌∷◌, []};
ghost use Rattle.osb_catalog.specs.FaultNames.{field_in};
ghost use Rattle.osb_listen.specs.Lines.{Says};
ghost use Rattle.osb_cli.specs.Lines.{database_fault_line, descriptors_line, difference_line, place_line, settings_line, unbound_lines, unseen_lines};

use itoa::Buffer;
use osb_advice::{shown, wanted};
use osb_catalog::{Place, SettingsFault};
use osb_file::{Difference, FileFault, Unseen};
use osb_frames::Sink;
use osb_listen::{Unbound, say};
use osb_records::StoreFault;
use osb_text::Text;
use std::alloc::AllocError;

/// Why a command ends with another status than 0.
#[derive(Debug, Drop)]
pub(crate) enum Fault<'a> {
    /// The file of that name can't be read.
    CannotRead(&'a str),
    /// The file of that name is larger than the limit.
    TooLarge(&'a str),
    /// Memory was refused.
    OutOfMemory,
    /// The database can't be used.
    Database(FileFault),
    /// Standard output doesn't take what is written.
    CannotWrite,
    /// Connections can't be taken at that address.
    CannotListen(&'a str),
    /// The same, and why.
    Unbound(&'a str, Unbound),
    /// The next connection can't be taken.
    CannotAccept,
    /// That isn't an address.
    NoAddress(&'a str),
    /// The program doesn't answer at that address.
    NotReady(&'a str),
    /// So many descriptors are needed, and only so many allowed.
    TooFewDescriptors(usize, usize),
    /// The words aren't those of a command, as this text says.
    Words(String),
    /// The settings aren't accepted.
    Settings(SettingsFault),
    /// The same, and where in them the fault is.
    Placed(SettingsFault, Place),
    /// The settings have no object, for this reason.
    Unreadable(String),
    /// The database file can't be looked at, or served from.
    Unseen(Unseen),
    /// The database isn't one of this broker, and differs in this.
    Differs(Difference),
    /// The file of that name, which is to be made, is there already.
    IsThere(&'a str),
    /// The same of its name with `-new` behind.
    DraftIsThere(&'a str),
    /// The file of that name can't be made.
    CannotMake(&'a str),
}

/// Why `serve` ends with another status than 0, or would end, as `check` finds.
#[derive(Debug, Drop)]
pub(crate) enum Unserved<'a> {
    /// As another command might.
    Fault(Fault<'a>),
    /// The database has that service and plan in use, and the catalog doesn't have them.
    PlanInUse(Text, Text),
}

impl From<AllocError> for Fault<'_> {
    ghost use Rattle.std.specs.Prelude.{◌≡◌};
    ghost use Rattle.osb_cli.specs.declared.fault.Fault.TheVariants.{OutOfMemory};

    ghost from_gives = { λ _ fault. fault ≡ OutOfMemory };

    fn from(_error: AllocError) -> Self {
        Fault::OutOfMemory
    }
}

impl From<Unseen> for Fault<'_> {
    ghost use Rattle.std.specs.Prelude.{◌≡◌};
    ghost use Rattle.osb_cli.specs.declared.fault.Fault.TheVariants.{Unseen};

    ghost from_gives = { λ unseen fault. fault ≡ Unseen unseen };

    fn from(unseen: Unseen) -> Self {
        Fault::Unseen(unseen)
    }
}

impl From<StoreFault> for Fault<'_> {
    ghost use Rattle.std.specs.Prelude.{◌≡◌};
    ghost use Rattle.osb_file.specs.Faults.{file_fault_of};
    ghost use Rattle.osb_cli.specs.declared.fault.Fault.TheVariants.{Database};

    ghost from_gives = { λ store fault. fault ≡ Database (file_fault_of store) };

    fn from(store: StoreFault) -> Self {
        Fault::Database(FileFault::from(store))
    }
}

impl<'a> From<Fault<'a>> for Unserved<'a> {
    ghost use Rattle.std.specs.Prelude.{◌≡◌};
    ghost use Rattle.osb_cli.specs.declared.fault.Unserved.TheVariants.{Fault};

    ghost from_gives = { λ fault unserved. unserved ≡ Fault fault };

    fn from(fault: Fault<'a>) -> Self {
        Unserved::Fault(fault)
    }
}

/// Writes the line of a settings fault: its number, its name and, where it has one, its field.
fn print_settings_fault<E: Sink>(fault: SettingsFault, errors: &mut E)
    ensures { Says (settings_line fault (field_in fault) ∷ [])
        (E.taken errors.old) (E.taken errors.new)
        (E.failed_or_empty errors.old) (E.failed_or_empty errors.new) }
{
    let mut digits = Buffer::new();
    let number = digits.format(fault.number());
    match fault.field() {
        None => say(errors, &["settings: ", number, " ", fault.name(), "\n"]),
        Some(field) => say(
            errors,
            &[
                "settings: ",
                number,
                " ",
                fault.name(),
                " ",
                field.name(),
                "\n",
            ],
        ),
    }
}

/// Writes where in the settings a fault is.
fn print_place<E: Sink>(place: &Place, errors: &mut E)
    ensures { Says (place_line place.now ∷ [])
        (E.taken errors.old) (E.taken errors.new)
        (E.failed_or_empty errors.old) (E.failed_or_empty errors.new) }
{
    let (mut digits, mut more) = (Buffer::new(), Buffer::new());
    match place {
        Place::File => say(errors, &["at the top\n"]),
        Place::Catalog => say(errors, &["at catalog\n"]),
        Place::Platform => say(errors, &["at platform\n"]),
        Place::Backend => say(errors, &["at backend\n"]),
        Place::Service(at) => say(errors, &["at catalog.services[", digits.format(*at), "]\n"]),
        Place::Plan(service, at) => say(
            errors,
            &[
                "at catalog.services[",
                digits.format(*service),
                "].plans[",
                more.format(*at),
                "]\n",
            ],
        ),
        Place::Mode(name) => say(errors, &["at modes.", shown(name.as_str()), "\n"]),
    }
}

/// Writes the line of a database file that can't be looked at, and behind it the cause.
fn print_unseen<E: Sink>(unseen: Unseen, errors: &mut E)
    ensures { Says (unseen_lines unseen)
        (E.taken errors.old) (E.taken errors.new)
        (E.failed_or_empty errors.old) (E.failed_or_empty errors.new) }
{
    print_database_fault(unseen.fault(), errors);
    if unseen != Unseen::NotOurs {
        say(errors, &[unseen.text(), "\n"]);
    }
}

/// Writes in what a database differs from one of this broker.
fn print_difference<E: Sink>(difference: &Difference, errors: &mut E)
    ensures { Says (difference_line difference.now ∷ [])
        (E.taken errors.old) (E.taken errors.new)
        (E.failed_or_empty errors.old) (E.failed_or_empty errors.new) }
{
    let mut digits = Buffer::new();
    match difference {
        Difference::Tables => say(errors, &["the tables of another program\n"]),
        Difference::Newer(version) => {
            say(errors, &["version ", digits.format(*version), ": newer\n"]);
        }
        Difference::TableMore(name) => say(errors, &["a table more: ", shown(name.as_str()), "\n"]),
        Difference::IndexMore(name) => say(
            errors,
            &["an index more: ", shown(name.as_str()), "\n"],
        ),
        Difference::ViewMore(name) => say(errors, &["a view more: ", shown(name.as_str()), "\n"]),
        Difference::Rows => say(errors, &["rows that don't fit\n"]),
    }
}

/// Writes that connections can't be taken at an address, and why.
fn print_unbound<E: Sink>(address: &str, cause: Unbound, errors: &mut E)
    ensures { Says (unbound_lines address.now cause)
        (E.taken errors.old) (E.taken errors.new)
        (E.failed_or_empty errors.old) (E.failed_or_empty errors.new) }
{
    say(errors, &["osb-broker: cannot listen on ", address, "\n"]);
    say(errors, &[cause.text(), "\n"]);
}

/// Writes the line of a fault of the database: its number and its name.
fn print_database_fault<E: Sink>(fault: FileFault, errors: &mut E)
    ensures { Says (database_fault_line fault ∷ [])
        (E.taken errors.old) (E.taken errors.new)
        (E.failed_or_empty errors.old) (E.failed_or_empty errors.new) }
{
    match fault {
        FileFault::Refused => say(errors, &["database: 1 Refused\n"]),
        FileFault::NotOurs => say(errors, &["database: 2 NotOurs\n"]),
        FileFault::Missing => say(errors, &["database: 3 Missing\n"]),
    }
}

/// Writes how many descriptors are needed, and how many allowed.
fn print_descriptors<E: Sink>(needed: usize, allowed: usize, errors: &mut E)
    ensures { Says (descriptors_line needed allowed ∷ [])
        (E.taken errors.old) (E.taken errors.new)
        (E.failed_or_empty errors.old) (E.failed_or_empty errors.new) }
{
    let (mut digits, mut more) = (Buffer::new(), Buffer::new());
    say(
        errors,
        &[
            "osb-broker: too few descriptors: ",
            digits.format(needed),
            " needed, ",
            more.format(allowed),
            " allowed\n",
        ],
    );
}

impl Fault<'_> {
    ghost use Rattle.osb_cli.specs.Lines.{fault_lines, fault_status};

    /// The status that the process ends with.
    pub(crate) fn status(&self) -> u8
        ensures some { 1 ≤ result }
        ensures most { result ≤ 3 }
        ensures is { result ≡ fault_status self.now }
    {
        match self {
            Fault::CannotRead(_)
            | Fault::TooLarge(_)
            | Fault::OutOfMemory
            | Fault::Database(_)
            | Fault::CannotWrite
            | Fault::CannotListen(_)
            | Fault::Unbound(_, _)
            | Fault::CannotAccept
            | Fault::NoAddress(_)
            | Fault::NotReady(_)
            | Fault::TooFewDescriptors(_, _)
            | Fault::Unseen(_)
            | Fault::Differs(_)
            | Fault::IsThere(_)
            | Fault::DraftIsThere(_)
            | Fault::CannotMake(_) => 1,
            Fault::Words(_) => 2,
            Fault::Settings(_) | Fault::Placed(_, _) | Fault::Unreadable(_) => 3,
        }
    }

    /// Writes the line that reports it. It takes no memory.
    pub(crate) fn print_line<E: Sink>(&self, errors: &mut E)
        ensures { Says (fault_lines self.now)
            (E.taken errors.old) (E.taken errors.new)
            (E.failed_or_empty errors.old) (E.failed_or_empty errors.new) }
    {
        match self {
            Fault::CannotRead(file) => say(errors, &["osb-broker: cannot read ", file, "\n"]),
            Fault::TooLarge(file) => say(errors, &["osb-broker: too large ", file, "\n"]),
            Fault::OutOfMemory => say(errors, &["osb-broker: out of memory\n"]),
            Fault::Database(fault) => print_database_fault(*fault, errors),
            Fault::CannotWrite => say(errors, &["osb-broker: cannot write\n"]),
            Fault::CannotListen(address) => say(
                errors,
                &["osb-broker: cannot listen on ", address, "\n"],
            ),
            Fault::Unbound(address, cause) => print_unbound(address, *cause, errors),
            Fault::CannotAccept => say(errors, &["osb-broker: cannot accept\n"]),
            Fault::NoAddress(address) => {
                say(errors, &["osb-broker: no address ", address, "\n"]);
            }
            Fault::NotReady(address) => say(errors, &["osb-broker: not ready ", address, "\n"]),
            Fault::TooFewDescriptors(needed, allowed) => {
                print_descriptors(*needed, *allowed, errors);
            }
            Fault::Words(text) => say(errors, &[text.as_str()]),
            Fault::Settings(fault) => print_settings_fault(*fault, errors),
            Fault::Placed(fault, place) => {
                print_settings_fault(*fault, errors);
                print_place(place, errors);
                say(errors, &[wanted(*fault, Some(place)), "\n"]);
            }
            Fault::Unreadable(reason) => {
                print_settings_fault(SettingsFault::Text, errors);
                say(errors, &[reason.as_str(), "\n"]);
            }
            Fault::Unseen(unseen) => print_unseen(*unseen, errors),
            Fault::Differs(difference) => {
                print_database_fault(FileFault::NotOurs, errors);
                print_difference(difference, errors);
            }
            Fault::IsThere(file) => say(errors, &["osb-broker: already there ", file, "\n"]),
            Fault::DraftIsThere(file) => {
                say(errors, &["osb-broker: already there ", file, "-new\n"]);
            }
            Fault::CannotMake(file) => say(errors, &["osb-broker: cannot make ", file, "\n"]),
        }
    }
}

impl Unserved<'_> {
    ghost use Rattle.osb_cli.specs.Inside.{IsPlan};
    ghost use Rattle.osb_cli.specs.Lines.{unserved_lines, unserved_status};

    /// The status that the process ends with.
    pub(crate) fn status(&self) -> u8
        ensures some { 1 ≤ result }
        ensures most { result ≤ 4 }
        ensures plan { result ≡ 4 → IsPlan self.now }
        ensures is { result ≡ unserved_status self.now }
    {
        match self {
            Unserved::Fault(fault) => fault.status(),
            Unserved::PlanInUse(_, _) => 4,
        }
    }

    /// Writes the line that reports it. It takes no memory.
    pub(crate) fn print_line<E: Sink>(&self, errors: &mut E)
        ensures { Says (unserved_lines self.now)
            (E.taken errors.old) (E.taken errors.new)
            (E.failed_or_empty errors.old) (E.failed_or_empty errors.new) }
    {
        match self {
            Unserved::Fault(fault) => fault.print_line(errors),
            Unserved::PlanInUse(service, plan) => say(
                errors,
                &["plan in use: ", service.as_str(), " ", plan.as_str(), "\n"],
            ),
        }
    }
}
