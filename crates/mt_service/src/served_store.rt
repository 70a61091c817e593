//! The store that a server serves from: none, a new one, or one that is recovered. And the port that it is served at.

ghost use Rattle.std.specs.Prelude.{◌≡◌, ◌≤◌, [], true, false, IfOk, IfErr, OnOk, OnErr, IsSome};
ghost use Rattle.mt_state.specs.Begins.{HaveNoPairs};
ghost use Rattle.mt_book.specs.Keeping.{IsUnasked};
ghost use Rattle.mt_service.specs.{ServedStore.{IsOpened, IsOfOpening, IsMadeFrom, IsMadeOn, IsRecovered, IsOfPlace, IsAtPlace}, ReadStores.{IsRecoveredFrom, ComparesFirst, IsOfReading}, Starts.{IsOfStart, LeavesFolder}};
ghost use Rattle.mt_store_files.specs.Faults.{IsOfFolder};
ghost use Rattle.mt_service.specs.StoreFaults.{fault_of, plain_file, IsToldAs, TellsBy, IsToldOf};

use crate::accounts::accounts_of;
use crate::connections::listen;
use crate::faults::ServerFault;
use crate::progress::Progress;
use log::Log;
use mt_disk::FileDisk;
use mt_options::{Options, StorePlace};
use mt_rows::{Refusal, Tenants};
use mt_slots::SlotFault;
use mt_store_files::{
    FolderFault, FolderSystem, OsFolder, StoreFault, StoreFile, StoreFolder, Suspects,
};
use mt_store_logs::{LogRefusal, StoreRefusal};
use mt_stored::Store;
use std::alloc::Global;
use std::fs::File;
use std::net::{Net, TcpListener, TcpStream};
use std::rt::Files;
use std::time::Clock;

/// A store, its folder, if it has one, and who listens for those whom it serves. No other server has the folder open while this
/// lives.
#[derive(Drop)]
pub struct OpenStore {
    pub store: Store<FileDisk>,
    pub folder: Option<StoreFolder>,
    pub listener: TcpListener,
}

/// Opens the store that the options name, and listens at their port. A store is made anew after that, and recovered before it.
/// Without one nothing is kept. It warns of a recovery that is long, and how far it is once it has taken two seconds.
///
/// Errors: the refusal of the first tenant that can't be served; `Memory`; why the store isn't served; `Listen`.
pub fn open_store<
    R: Files<File = File> + Clock + Log + Net<Listener = TcpListener, Stream = TcpStream>,
>(rt: &R, alloc: Global, options: &Options) -> Result<OpenStore, ServerFault>
    ensures ok { IfOk result (IsOpened options.now) }
    ensures fault { IfErr result (IsOfOpening options.now) }
{
    let tenants = accounts_of(alloc, options.tenants.as_slice())?;
    match &options.store {
        None => {
            let store = Store::without_logs(alloc, tenants)?;
            let listener = listen(rt, options)?;
            Ok(OpenStore {
                store,
                folder: None,
                listener,
            })
        }
        Some(place) if place.create => make(rt, alloc, options, place, tenants),
        Some(place) => recover(rt, alloc, options, place, tenants),
    }
}

/// A fault of the store in a folder, told with it.
pub(crate) fn told_of(alloc: Global, folder: &str, fault: StoreFault) -> ServerFault
    ensures { IsToldOf folder.now fault result }
{
    match String::from_str(alloc, folder) {
        Ok(folder) => ServerFault::Store(FolderFault { folder, fault }),
        Err(_) => ServerFault::Memory,
    }
}

// A store made anew in a folder, which is made if there is none.
fn make<R: Files<File = File> + Net<Listener = TcpListener, Stream = TcpStream>>(
    rt: &R,
    alloc: Global,
    options: &Options,
    place: &StorePlace,
    tenants: Tenants,
) -> Result<OpenStore, ServerFault>
    requires empty { HaveNoPairs tenants }
    ensures ok { IfOk result (IsMadeOn options.now.workers tenants) }
    ensures unasked { IfOk result (λ opened. IsUnasked opened.store.source.state) }
    ensures kept { IfOk result (λ opened. IsSome opened.folder) }
    ensures err { IfErr result (IsOfStart options.now place.now true tenants) }
{
    match make_folder(rt, alloc, place.folder.as_str()) {
        Ok(mut folder) => {
            let (store, listener) = make_in(rt, alloc, options, place, &mut folder, tenants)?;
            Ok(OpenStore {
                store,
                folder: Some(folder),
                listener,
            })
        }
        Err(fault) => Err(told_of(alloc, place.folder.as_str(), fault)),
    }
}

// The folder of a store that is to be made, locked.
fn make_folder<R: Files<File = File>>(
    rt: &R,
    alloc: Global,
    folder: &str,
) -> Result<StoreFolder, StoreFault>
    ensures { IfErr result IsOfFolder }
{
    StoreFolder::make(rt, alloc, OsFolder::at(alloc, folder)?)
}

// A store made anew in a folder that is locked, after the port is had. If it isn't, the folder is as it was.
fn make_in<
    R: Files<File = File> + Net<Listener = TcpListener, Stream = TcpStream>,
    S: FolderSystem + Drop,
>(
    rt: &R,
    alloc: Global,
    options: &Options,
    place: &StorePlace,
    folder: &mut StoreFolder<S>,
    tenants: Tenants,
) -> Result<(Store<S::File>, TcpListener), ServerFault>
    requires empty { HaveNoPairs tenants }
    ensures ok { IfOk result (λ made. IsMadeFrom S.File.is_honest S.File.state S.File.failures options.now.workers tenants made.0.source.state made.0.logs.items made.0.slots) }
    ensures unasked { IfOk result (λ made. IsUnasked made.0.source.state) }
    ensures left { IfErr result (LeavesFolder (S.calls folder.old.system) (S.calls folder.new.system)) }
    ensures err { IfErr result (IsOfStart options.now place.now true tenants) }
{
    let listener = listen(rt, options)?;
    match create_in(rt, alloc, folder, options.workers, tenants) {
        Ok(store) => Ok((store, listener)),
        Err(fault) => Err(told_of(alloc, place.folder.as_str(), fault)),
    }
}

// A store of so many workers made anew in a folder. What stood there is lost.
fn create_in<R: Files<File = File>, S: FolderSystem + Drop>(
    rt: &R,
    alloc: Global,
    folder: &mut StoreFolder<S>,
    workers: u8,
    tenants: Tenants,
) -> Result<Store<S::File>, StoreFault>
    requires some { 1 ≤ workers }
    requires few { workers ≤ 64 }
    requires empty { HaveNoPairs tenants }
    ensures ok { IfOk result (λ store. IsMadeFrom S.File.is_honest S.File.state S.File.failures workers tenants store.source.state store.logs.items store.slots) }
    ensures unasked { IfOk result (λ store. IsUnasked store.source.state) }
    ensures err { IfErr result (IsOfPlace true workers tenants) }
{
    let files = folder.create_logs(rt, alloc, workers)?;
    let slots = folder.create_slots(rt, alloc)?;
    match Store::create(alloc, files, slots, tenants) {
        Ok(store) => Ok(store),
        Err(refusal) => Err(refused(refusal)),
    }
}

// The store of a folder, recovered, and then the port. If the store is refused the folder is left as it was.
fn recover<R: Files<File = File> + Clock + Log + Net<Listener = TcpListener, Stream = TcpStream>>(
    rt: &R,
    alloc: Global,
    options: &Options,
    place: &StorePlace,
    tenants: Tenants,
) -> Result<OpenStore, ServerFault>
    requires empty { HaveNoPairs tenants }
    ensures ok { IfOk result (λ opened. IsRecovered options.now.workers tenants opened.store.source.state opened.store.logs.items opened.store.slots) }
    ensures unasked { IfOk result (λ opened. IsUnasked opened.store.source.state) }
    ensures kept { IfOk result (λ opened. IsSome opened.folder) }
    ensures err { IfErr result (IsOfStart options.now place.now false tenants) }
{
    let folder = place.folder.as_str();
    match recover_at(rt, alloc, folder, options.workers, tenants) {
        Ok((store, locked)) => {
            let listener = listen(rt, options)?;
            Ok(OpenStore {
                store,
                folder: Some(locked),
                listener,
            })
        }
        Err(fault) => Err(told_of(alloc, folder, fault)),
    }
}

// The store of a folder, recovered, and the folder, locked.
fn recover_at<R: Files<File = File> + Clock + Log>(
    rt: &R,
    alloc: Global,
    folder: &str,
    workers: u8,
    tenants: Tenants,
) -> Result<(Store<FileDisk>, StoreFolder), StoreFault>
    requires few { workers ≤ 64 }
    requires empty { HaveNoPairs tenants }
    ensures ok { IfOk result (λ found. IsRecovered workers tenants found.0.source.state found.0.logs.items found.0.slots) }
    ensures unasked { IfOk result (λ found. IsUnasked found.0.source.state) }
    ensures err { IfErr result (IsOfPlace false workers tenants) }
{
    let mut locked = StoreFolder::open(rt, alloc, OsFolder::at(alloc, folder)?)?;
    match recover_in(rt, alloc, &mut locked, workers, tenants) {
        Ok(store) => Ok((store, locked)),
        Err(fault) => Err(fault),
    }
}

/// The store of a folder that is open, recovered. If it is refused nothing is left that was made for it.
pub(crate) fn recover_in<R: Files<File = File> + Clock + Log, S: FolderSystem + Drop>(
    rt: &R,
    alloc: Global,
    folder: &mut StoreFolder<S>,
    workers: u8,
    tenants: Tenants,
) -> Result<Store<S::File>, StoreFault>
    requires few { workers ≤ 64 }
    requires empty { HaveNoPairs tenants }
    ensures ok { IfOk result (λ store. IsRecoveredFrom S.File.is_honest S.File.state S.File.failures workers tenants store.source.state store.logs.items store.slots) }
    ensures unasked { IfOk result (λ store. IsUnasked store.source.state) }
    ensures compared { OnOk result (ComparesFirst S.File.is_honest S.File.state workers (S.calls folder.old.system) (S.calls folder.new.system)) }
    ensures err { IfErr result (IsOfReading S.File.is_honest S.File.state S.File.failures workers tenants) }
    ensures none_left { OnErr result (folder.new.made.items ≡ []) }
{
    match read_store(rt, alloc, folder, workers, tenants) {
        Ok(store) => Ok(store),
        Err(fault) => Err(folder.refused(rt, alloc, fault)),
    }
}

// The store that the files of a folder hold, if these are what was written, by their digests.
fn read_store<R: Files<File = File> + Clock + Log, S: FolderSystem + Drop>(
    rt: &R,
    alloc: Global,
    folder: &mut StoreFolder<S>,
    workers: u8,
    tenants: Tenants,
) -> Result<Store<S::File>, StoreFault>
    requires few { workers ≤ 64 }
    requires empty { HaveNoPairs tenants }
    ensures ok { IfOk result (λ store. IsRecoveredFrom S.File.is_honest S.File.state S.File.failures workers tenants store.source.state store.logs.items store.slots) }
    ensures unasked { IfOk result (λ store. IsUnasked store.source.state) }
    ensures compared { OnOk result (ComparesFirst S.File.is_honest S.File.state workers (S.calls folder.old.system) (S.calls folder.new.system)) }
    ensures err { IfErr result (IsOfReading S.File.is_honest S.File.state S.File.failures workers tenants) }
{
    folder.check_digests(rt, alloc, workers)?;
    let mut files = folder.open_logs(rt, alloc, workers)?;
    let slots = folder.open_slots(rt, alloc)?;
    let mut progress = Progress::new(rt);
    progress.begin(&mut files);
    let recovered = Store::recover_watched(alloc, files, slots, tenants, &mut progress);
    progress.end();
    match recovered {
        Ok(store) => Ok(store),
        Err(refusal) => Err(not_recovered(rt, alloc, folder, workers, refusal)),
    }
}

// What a refusal of a store is told as.
fn refused(why: StoreRefusal) -> StoreFault
    ensures { result ≡ fault_of why }
{
    match why {
        StoreRefusal::Logs(
            LogRefusal {
                log: Some(worker),
                refusal: Refusal::Device,
            },
        ) => StoreFault::RefusedLog(Suspects::none(worker), Refusal::Device),
        StoreRefusal::Logs(LogRefusal { log, refusal }) => {
            StoreFault::Refused(plain_file(log, refusal), refusal)
        }
        StoreRefusal::Slot(SlotFault { slot, cause }) => StoreFault::Refused(
            Some(StoreFile::Slot(slot)),
            cause.refusal(),
        ),
    }
}

// The plain file of the log that is the cause, if one is.
fn plain_file(log: Option<usize>, refusal: Refusal) -> Option<StoreFile>
    ensures { result ≡ plain_file log refusal }
{
    match (log, refusal) {
        (_, Refusal::StampsFall { number, .. }) => Some(StoreFile::Log(usize::from(number))),
        (Some(worker), _) => Some(StoreFile::Log(worker)),
        (None, _) => None,
    }
}

// The same, of a store whose logs so many workers asked for. If they are no set, the folder's logs are counted, and their
// headers compared.
fn not_recovered<R: Files<File = File>, S: FolderSystem + Drop>(
    rt: &R,
    alloc: Global,
    folder: &mut StoreFolder<S>,
    workers: u8,
    why: StoreRefusal,
) -> StoreFault
    ensures { TellsBy S.File.is_honest S.File.state workers why result (S.calls folder.old.system) (S.calls folder.new.system) }
{
    match why.refusal() {
        Refusal::LogCount => match folder.count_logs(rt, alloc, workers) {
            Ok(counts) => match folder.compare_headers(rt, alloc, workers) {
                Ok(()) => StoreFault::LogCount(counts),
                Err(strange) => StoreFault::Strange(strange, counts),
            },
            Err(_) => refused(why),
        },
        _ => told_as(rt, alloc, folder, refused(why)),
    }
}

// A fault of a plain file, told of those files of its worker's log in which the cause may be.
fn told_as<R: Files<File = File>, S: FolderSystem + Drop>(
    rt: &R,
    alloc: Global,
    folder: &mut StoreFolder<S>,
    fault: StoreFault,
) -> StoreFault
    ensures { IsToldAs S.File.is_honest S.File.state fault result (S.calls folder.old.system) (S.calls folder.new.system) }
{
    match fault {
        StoreFault::Refused(Some(StoreFile::Log(worker)), refusal) => {
            StoreFault::RefusedLog(folder.suspects(rt, alloc, worker, refusal), refusal)
        }
        fault => fault,
    }
}
