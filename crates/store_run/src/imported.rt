//! The users of a shadow or htpasswd file, set in the table of a file of the system.

ghost use Rattle.std.specs.Prelude.{◌≡◌, ◌≢◌, ◌≤◌, ◌||◌, is_some, true, IfErr, IfSome};
ghost use Rattle.shadow_table.specs.AnyTexts.{any_texts};
ghost use Rattle.file_device.specs.Calls.{MayLeave, seen};
ghost use Rattle.pw_store.specs.Stored.{IsSound, takes_changes};
ghost use Rattle.store_run.specs.Statuses.{IsTableStatus};

use crate::foreign::import_foreign;
use crate::messages::{Failure, STREAM_CLOSED, Speaker, StreamFaults};
use crate::noted::Noted;
use crate::opened::{STANDARD_INPUT, store_at, tell};
use crate::status::NO_FILE;
use crate::table::import_users;
use application_texts::Maker;
use file_device::{FileDevice, is_standard};
use foreign_lines::maker_named;
use foreign_text::Foreign;
use ldif_lines::{FileForm, LdifLines};
use line_filter::{Filtered, LineForms};
use line_io::{Sink, Source, StdSink, StdSource};
use line_log::Device;
use pw_store::Store;
use shadow_table::{AnyTexts, TableRuled, TableRules};
use std::fs::File;
use std::io;
use std::io::Read;
use std::marker::Brand;

// Why a file of users isn't read: it has taken the place of a standard stream that is closed, or is a folder.
fn users_fault(is_standard: bool, is_folder: bool) -> Option<&'static str>
    ensures fault { is_some result ≡ (is_standard || is_folder) }
{
    if is_standard {
        return Some(STREAM_CLOSED);
    }
    if is_folder {
        return Some("this is a directory");
    }
    None
}

// Whether a file is a folder, where the system tells.
fn is_folder(file: &File) -> bool {
    match file.metadata() {
        Ok(metadata) => metadata.is_dir(),
        Err(_) => false,
    }
}

// Opens a file of users, or says why it isn't opened.
fn opened_users(rt: &HostRuntime, speaker: &Speaker<'_>, users: &str) -> Result<File, u8>
    ensures unopened { IfErr result (λ status. IsTableStatus status) }
{
    let file = match File::open(rt, users) {
        Ok(file) => file,
        Err(error) => {
            speaker.say_error(rt, users, error);
            return Err(NO_FILE);
        }
    };
    match users_fault(is_standard(&file), is_folder(&file)) {
        Some(cause) => {
            speaker.say_of(rt, users, cause);
            Err(NO_FILE)
        }
        None => Ok(file),
    }
}

// A dump of a directory has lines that end with a line feed, with or without a carriage return before it.
const OF_DUMP: LineForms = LineForms {
    crlf: true,
    htpasswd: false,
};

// Sets the users of the lines that a source gives, or of a dump of a directory, in whatever spelling the texts are.
fn import_given<T: TableRuled, D: Device, S: Source + Drop, K: Sink>(
    store: &mut Store<D, AnyTexts<T>>,
    from: Option<Maker>,
    source: S,
    sink: &mut K,
) -> u8
    requires open { takes_changes store.old ≡ true }
    requires sound { IsSound (any_texts T.rules) D.seen D.may_leave store.old }
    ensures statuses { (result ≤ 7) × (result ≢ 2) }
{
    match from {
        None => import_users(store, source, sink),
        Some(Maker::Foreign(Foreign::Ldif)) => {
            let dump = LdifLines::new(FileForm::Ldif, Filtered::new(OF_DUMP, source));
            import_foreign(store, Maker::Foreign(Foreign::Ldif), dump, sink)
        }
        Some(foreign) => import_foreign(store, foreign, source, sink),
    }
}

// Sets the users of the lines that a reader gives, in a store.
fn import_store<'a, T: TableRuled, R: Read + Drop>(
    rt: &'a HostRuntime,
    speaker: &Speaker<'_>,
    store: Store<FileDevice<'a>, AnyTexts<T>>,
    from: Option<Maker>,
    name: &str,
    reader: R,
) -> u8
    requires open { takes_changes store ≡ true }
    requires sound { IsSound (any_texts T.rules) (λ d. seen d.record.calls) (λ d c. MayLeave d.record.calls c) store }
    ensures statuses { (result ≤ 7) × (result ≢ 2) }
{
    let mut store = store;
    let mut reader = Noted::new(reader);
    let mut writer = Noted::new(io::writer(rt));
    let mut sink = StdSink::new(&mut writer);
    let source = StdSource::new(&mut reader);
    let status = import_given(&mut store, from, source, &mut sink);
    let streams = StreamFaults {
        name,
        input: reader.fault(),
        output: writer.fault(),
    };
    tell(
        rt,
        speaker,
        status,
        streams,
        store.takes_changes(),
        Failure::of(store.device()),
    );
    status
}

// What is imported: the file of users by its name, or `-`, and the maker of its texts, where one is given.
#[derive(Clone, Copy)]
struct Import<'a> {
    users: &'a str,
    from: Option<Maker>,
}

// Sets the users of the lines that a reader gives, in the table of a file.
fn import_from<T: TableRuled, R: Read + Drop>(
    rt: &HostRuntime,
    speaker: &Speaker<'_>,
    rules: TableRules,
    from: Option<Maker>,
    name: &str,
    reader: R,
) -> u8
    requires rules { rules ≡ T.rules }
    ensures statuses { IsTableStatus result }
{
    match store_at::<T>(rt, speaker, rules, true) {
        Ok(store) => import_store(rt, speaker, store, from, name, reader),
        Err(status) => status,
    }
}

// `import_file` by rules that the type has.
fn import_at<T: TableRuled>(
    rt: &HostRuntime,
    speaker: &Speaker<'_>,
    rules: TableRules,
    import: Import<'_>,
) -> u8
    requires rules { rules ≡ T.rules }
    ensures statuses { IsTableStatus result }
{
    let Import { users, from } = import;
    if users == "-" {
        return import_from::<T, _>(rt, speaker, rules, from, STANDARD_INPUT, rt.reader());
    }
    match opened_users(rt, speaker, users) {
        Ok(reader) => import_from::<T, _>(rt, speaker, rules, from, users, reader),
        Err(status) => status,
    }
}

/// Sets the text of each line of a shadow or htpasswd file for the line's user by these rules, in the table of a file that is made
/// where it isn't there, and gives the status: that of [`import_users`], as for [`serve_file`](crate::serve_file); and 66
/// where the file of users isn't opened, also where it would take the place of a standard stream that is closed. `-` is standard input.
///
/// Where a maker is given the texts are converted first, as [`import_foreign`] has it; of LDIF the file is a dump of a directory.
/// What is said on standard error begins with the name of the program.
pub fn import_file(
    rt: &HostRuntime,
    program: &str,
    file: &str,
    users: &str,
    from: Option<Maker>,
    rules: TableRules,
) -> u8
    ensures statuses { IsTableStatus result }
{
    let speaker = Speaker { program, file };
    import_at::<Brand>(rt, &speaker, rules, Import { users, from })
}

/// The same by the name of a maker, or without one; none where no maker has the name.
pub(crate) fn import_named(
    rt: &HostRuntime,
    program: &str,
    file: &str,
    users: &str,
    from: Option<&str>,
    rules: TableRules,
) -> Option<u8>
    ensures statuses { IfSome result (λ status. IsTableStatus status) }
{
    let Some(name) = from else {
        return Some(import_file(rt, program, file, users, None, rules));
    };
    match maker_named(name) {
        Some(foreign) => Some(import_file(rt, program, file, users, Some(foreign), rules)),
        None => None,
    }
}
