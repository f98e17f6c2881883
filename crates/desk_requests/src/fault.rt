//! Fault lines and exit statuses.

ghost use Rattle.std.specs.Prelude.{◌≡◌};
ghost use Rattle.desk_requests.specs.Statuses.{key_status, status_of, store_back, store_front};

use batch::{BatchFault, Contact};
use client::{ClientFault, refusal_name};
use fault_lines::status_of_run;
use hall_file::service::Service;
use keys::key_file::KeyFileFault;
use lines::RunFault;
use std::fmt;
use std::io::Write;
use wire::ClientRefusal;

/// Why the program did not do what its arguments ask for. Its text is one line for people.
#[derive(Clone, Copy, Debug, PartialEq, Eq)]
pub enum DeskFault {
    /// A run over lines ended early. A task without lines has three faults of these too: a number
    /// of desks that no hall has, a write that failed, and memory that ran out.
    Run(RunFault),
    /// The desk's number is not 1 to the number of desks, at most 5.
    BadDesk,
    /// A command's text has more than 600 bytes.
    TextTooLong,
    /// The desk refused.
    Refused { refusal: ClientRefusal },
    /// The connection to the address was not accepted.
    CannotConnect,
    /// The connection ended, a read failed, or the bytes that came are not the answer.
    NoAnswer,
    /// The desk was waited for as long as is wanted, and there is no answer.
    Late,
    /// The desk was asked under a key, and asks for none.
    NoKey,
    /// The desk has another key than the one under which it was asked.
    OtherKey,
    /// The desk was asked without a key, and asks for one.
    HasKey,
    /// The file of a key gives none.
    KeyFile(KeyFileFault),
    /// The file of a key was to be made, and is there.
    KeyThere,
    /// The hall's key and the entry key are one.
    SameKeys,
    /// An entry key or open sheets are asked for without a hall's key.
    NoHallKey,
    /// The file is the store of another desk or hall.
    WrongDesk,
    /// The file is not a valid store of a desk.
    DamagedStore,
    /// The file cannot be opened or read, or another program has it open.
    StoreDevice,
    /// The store refused a save.
    StoreDown,
    /// The desk cannot listen at its address, or cannot accept a client.
    CannotListen,
    /// The next line would have an id above the greatest one.
    NoMoreIds,
    /// The desk accepted a command and has not decided it.
    StillPending,
    /// The desk accepted a command and no longer knows it.
    Lost,
    /// A store has to be there, and there is none.
    NoStore,
    /// A store has to be made, and one is there.
    StoreThere,
    /// Two desks of a hall's file have one address.
    SameAddresses,
    /// No address can be found of the desk of this number, from 1, of a hall's file.
    UnknownHost { desk: u8 },
    /// What the hall's file says, or that it can't be read, was written before.
    BadHallFile,
    /// A line that is no command was named before, and nothing was sent.
    NoCommand,
    /// The entry at the position of a command is another one with the same id.
    AnotherCommand,
    /// A command was refused, and the lines end there.
    AtRefusal,
}

impl From<ClientFault> for DeskFault {
    ghost use Rattle.std.specs.Prelude.{◌≡◌};
    ghost use Rattle.desk_requests.specs.Statuses.{fault_of_client};

    ghost from_gives = { λ client fault. fault ≡ fault_of_client client };

    fn from(fault: ClientFault) -> DeskFault {
        match fault {
            ClientFault::Refused { refusal } => DeskFault::Refused { refusal },
            // a desk that ends accepts no request and gives no answer
            ClientFault::NoAnswer | ClientFault::Write => DeskFault::NoAnswer,
            ClientFault::NoMemory => DeskFault::Run(RunFault::NoMemory),
        }
    }
}

impl From<BatchFault> for DeskFault {
    ghost use Rattle.std.specs.Prelude.{◌≡◌};
    ghost use Rattle.desk_requests.specs.Statuses.{fault_of_batch};

    ghost from_gives = { λ entering fault. fault ≡ fault_of_batch entering };

    fn from(fault: BatchFault) -> DeskFault {
        match fault {
            BatchFault::TextTooLong => DeskFault::TextTooLong,
            BatchFault::NoMoreIds => DeskFault::NoMoreIds,
            BatchFault::CannotConnect => DeskFault::CannotConnect,
            BatchFault::Asking(fault) => DeskFault::from(fault),
            BatchFault::Late => DeskFault::Late,
            BatchFault::NoKey => DeskFault::NoKey,
            BatchFault::OtherKey => DeskFault::OtherKey,
            BatchFault::HasKey => DeskFault::HasKey,
            BatchFault::StillPending => DeskFault::StillPending,
            BatchFault::Lost => DeskFault::Lost,
            BatchFault::AnotherCommand => DeskFault::AnotherCommand,
            BatchFault::AtRefusal => DeskFault::AtRefusal,
            BatchFault::Write => DeskFault::Run(RunFault::Write),
            BatchFault::NoMemory => DeskFault::Run(RunFault::NoMemory),
        }
    }
}

impl fmt::Display for DeskFault {
    fn fmt<W: fmt::Write>(&self, f: &mut fmt::Formatter<W>) -> fmt::Result {
        match self {
            DeskFault::Run(fault) => write!(f, "{fault}"),
            DeskFault::BadDesk => f.write_str("bad desk number"),
            DeskFault::TextTooLong => f.write_str("text too long"),
            DeskFault::Refused { refusal } => write!(f, "refused {}", refusal_name(*refusal)),
            DeskFault::CannotConnect => f.write_str("cannot connect"),
            DeskFault::NoAnswer => f.write_str("no answer"),
            DeskFault::Late => f.write_str("no answer in time"),
            DeskFault::NoKey => f.write_str("the desk has no key"),
            DeskFault::OtherKey => f.write_str("the desk has another key"),
            DeskFault::HasKey => f.write_str("the desk has a key"),
            DeskFault::KeyFile(fault) => write!(f, "{fault}"),
            DeskFault::KeyThere => f.write_str("key file is there"),
            DeskFault::SameKeys => f.write_str("the two keys are one"),
            DeskFault::NoHallKey => {
                f.write_str("--entry-key, --old-key and --open-sheets need a hall's key")
            }
            DeskFault::WrongDesk => f.write_str("wrong desk"),
            DeskFault::DamagedStore => f.write_str("damaged store"),
            DeskFault::StoreDevice => f.write_str("store device"),
            DeskFault::StoreDown => f.write_str("store down"),
            DeskFault::CannotListen => f.write_str("cannot listen"),
            DeskFault::NoMoreIds => f.write_str("no more ids"),
            DeskFault::StillPending => f.write_str("still pending"),
            DeskFault::Lost => f.write_str("command lost"),
            DeskFault::NoStore => f.write_str("no store"),
            DeskFault::StoreThere => f.write_str("store there already"),
            DeskFault::SameAddresses => f.write_str("two desks have one address"),
            DeskFault::UnknownHost { desk: _ } => f.write_str("unknown host"),
            DeskFault::BadHallFile => f.write_str("bad hall file"),
            DeskFault::NoCommand => f.write_str("not a command"),
            DeskFault::AnotherCommand => f.write_str("another command's id"),
            DeskFault::AtRefusal => f.write_str("stopped at a refusal"),
        }
    }
}

/// The status of a key's file that gives none.
fn key_status(fault: KeyFileFault) -> u8
    ensures { result ≡ key_status fault }
{
    match fault {
        KeyFileFault::NoMemory => 5,
        _ => 3,
    }
}

/// The status of a fault: 3 for a named refusal, 4 for a device, 5 for memory.
fn status_of(fault: DeskFault) -> u8
    ensures { result ≡ status_of fault }
{
    match fault {
        DeskFault::Run(fault) => status_of_run(fault),
        DeskFault::KeyFile(fault) => key_status(fault),
        DeskFault::BadDesk
        | DeskFault::TextTooLong
        | DeskFault::Refused { refusal: _ }
        | DeskFault::NoKey
        | DeskFault::OtherKey
        | DeskFault::HasKey
        | DeskFault::KeyThere
        | DeskFault::SameKeys
        | DeskFault::NoHallKey
        | DeskFault::WrongDesk
        | DeskFault::DamagedStore
        | DeskFault::NoMoreIds
        | DeskFault::StillPending
        | DeskFault::Lost
        | DeskFault::NoStore
        | DeskFault::StoreThere
        | DeskFault::SameAddresses
        | DeskFault::UnknownHost { desk: _ }
        | DeskFault::BadHallFile
        | DeskFault::NoCommand
        | DeskFault::AnotherCommand
        | DeskFault::AtRefusal => 3,
        DeskFault::CannotConnect
        | DeskFault::NoAnswer
        | DeskFault::Late
        | DeskFault::StoreDevice
        | DeskFault::StoreDown
        | DeskFault::CannotListen => 4,
    }
}

/// Writes the line of a fault, which needs no memory, and returns its status. Where the line cannot
/// be written, the status alone says what happened.
pub fn tell<F: Write>(faults: &mut F, fault: DeskFault) -> u8
    ensures { result ≡ status_of fault }
{
    let _ = writeln!(faults, "{fault}");
    status_of(fault)
}

/// What is said of a desk that was waited for in vain.
#[derive(Drop)]
struct WaitNotice<'a> {
    contact: Contact<'a>,
}

impl fmt::Display for WaitNotice<'_> {
    ghost use Rattle.std.specs.Prelude.{Some};
    ghost use Rattle.desk_requests.specs.Statuses.{in_vain_text};

    ghost output = { λ v. Some (in_vain_text v.contact) };

    fn fmt<W: fmt::Write>(&self, f: &mut fmt::Formatter<W>) -> fmt::Result {
        f.write_str("no answer from ")?;
        f.write_str(self.contact.address)?;
        f.write_str(" (waited ")?;
        self.contact.patience.fmt(f)?;
        f.write_str(" s)")
    }
}

/// As [`tell`], of a fault of a request: where the desk was waited for in vain, the line names its
/// address and for how many seconds.
pub fn tell_asking<F: Write>(faults: &mut F, fault: DeskFault, contact: Contact<'_>) -> u8
    ensures { result ≡ status_of fault }
{
    match fault {
        DeskFault::Late => {
            let told = WaitNotice { contact };
            let _ = writeln!(faults, "{told}");
            status_of(fault)
        }
        other => tell(faults, other),
    }
}

/// What is before the path of a store that is not there, or is there.
fn front_of(fault: DeskFault) -> &'static str
    ensures { result.now ≡ store_front fault }
{
    match fault {
        DeskFault::StoreThere => "store ",
        _ => "no store ",
    }
}

/// What is after it.
fn back_of(fault: DeskFault) -> &'static str
    ensures { result.now ≡ store_back fault }
{
    match fault {
        DeskFault::StoreThere => " is there already: start without --new",
        _ => ": lost? see HALL, 'A disk died'; --new makes one, once, before the day",
    }
}

/// What is said of a store that has to be there and is not, or has to be made and is there.
#[derive(Drop)]
struct StoreNotice<'a> {
    fault: DeskFault,
    store: &'a str,
}

impl fmt::Display for StoreNotice<'_> {
    ghost use Rattle.std.specs.Prelude.{Some};
    ghost use Rattle.desk_requests.specs.Statuses.{store_text};

    ghost output = { λ v. Some (store_text v.fault v.store.now) };

    fn fmt<W: fmt::Write>(&self, f: &mut fmt::Formatter<W>) -> fmt::Result {
        f.write_str(front_of(self.fault))?;
        f.write_str(self.store)?;
        f.write_str(back_of(self.fault))
    }
}

/// What is said of a desk of which no address can be found.
#[derive(Drop)]
struct UnknownHost<'a> {
    desk: u8,
    address: &'a str,
}

impl fmt::Display for UnknownHost<'_> {
    ghost use Rattle.std.specs.Prelude.{Some};
    ghost use Rattle.desk_requests.specs.Statuses.{unknown_host_text};

    ghost output = { λ v. Some (unknown_host_text v.desk v.address.now) };

    fn fmt<W: fmt::Write>(&self, f: &mut fmt::Formatter<W>) -> fmt::Result {
        f.write_str("unknown host: desk ")?;
        self.desk.fmt(f)?;
        f.write_str(" at ")?;
        f.write_str(self.address)
    }
}

/// The address of a desk of a hall, counted from 1.
fn address_at<'a>(service: Service<'a>, desk: u8) -> &'a str {
    let place = usize::from(desk).saturating_sub(1);
    match service.addresses.get(place) {
        Some(address) => address,
        None => "",
    }
}

/// As [`tell`], of a fault of a desk that is to serve: where a store has to be there or to be made,
/// the line names its path, and where no address is found of a desk, it names the desk and what it
/// was looked for by.
pub fn tell_serving<F: Write>(faults: &mut F, fault: DeskFault, service: Service<'_>) -> u8
    ensures { result ≡ status_of fault }
{
    match fault {
        DeskFault::NoStore | DeskFault::StoreThere => {
            let store = service.options.store;
            let told = StoreNotice { fault, store };
            let _ = writeln!(faults, "{told}");
        }
        DeskFault::UnknownHost { desk } => {
            let address = address_at(service, desk);
            let told = UnknownHost { desk, address };
            let _ = writeln!(faults, "{told}");
        }
        other => return tell(faults, other),
    }
    status_of(fault)
}
