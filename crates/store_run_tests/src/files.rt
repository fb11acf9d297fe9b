//! Files that are taken, refused, made, and made anew.

use crate::helpers::{ANEW, EMPTY, NONE_FAILS, THREE, TWO, memory, opened};
use application_texts::Maker;
use foreign_text::Foreign;
use line_log::{MemoryDevice, OpenError};
use shadow_table::PLAIN_RULES;
use std::hash::{BuildHasher, RandomState};
use std::marker::Brand;
use std::os::unix::fs::PermissionsExt;
use std::{fs, io};
use store_run::{
    Untaken, compact_file, export_file, import_file, serve_file, store_of, table_action,
};

const REFUSED: [(&[u8], OpenError); 9] = [
    (b"", OpenError::NoHeader),
    (b"#pwstore 2\n#", OpenError::NoHeader),
    (b"#pwstore 1\nset\tann\n#", OpenError::BadLine(11)),
    (
        b"#pwstore 1\nset\tann\t*\nset\tb:c\t*\n#",
        OpenError::BadLine(21),
    ),
    (
        b"#pwstore 1\nset\tann\t*\nset\tbob\t",
        OpenError::BadEnd(21),
    ),
    (b"#pwstore 1\nset\tann\tx:y\n#", OpenError::BadLine(11)),
    // A user who isn't there, or no longer, and no name.
    (
        b"#pwstore 1\nset\tann\t*\nset\tbob\n#",
        OpenError::BadLine(21),
    ),
    (
        b"#pwstore 1\nset\tann\t*\nset\tann\nset\tann\n#",
        OpenError::BadLine(29),
    ),
    (b"#pwstore 1\nset\tann\t*\nset\t\n#", OpenError::BadLine(21)),
];

#[test]
fn files_that_are_refused(rt: HostRuntime) {
    for (i, (file, wanted)) in REFUSED.iter().enumerate() {
        let Some((device, bytes)) = memory(rt.alloc(), file, NONE_FAILS) else {
            panic!(rt; "memory is wanting")
        };
        match store_of::<Brand, MemoryDevice>(rt.alloc(), PLAIN_RULES, device, bytes, true) {
            Err(Untaken { device, error }) => {
                assert!(rt; error == *wanted && device.bytes() == *file, "of {i}");
            }
            Ok(_) => panic!(rt; "{i} is refused"),
        }
    }
}

// Of more than 100 bytes, and of one that a crash left.
const TAKEN: [(&[u8], usize); 6] = [
    (TWO, 2),
    (
        b"#pwstore 1\nset\tann\t*\nset\tbob\t*\nset\tcleo\t*\nset\tdan\t*\nset\teve\t*\nset\tfred\t*\nset\tgwen\t*\nset\thal\t*\nset\tida\t*\n#",
        9,
    ),
    (b"#pwstore 1\nset\tann\t*\n#et\tbob\t", 1),
    // A user who is taken away; one whose removal doesn't count; one whose text is empty.
    (b"#pwstore 1\nset\tann\t*\nset\tbob\t*\nset\tann\n#", 1),
    (b"#pwstore 1\nset\tann\t*\n#et\tann\n#", 1),
    (b"#pwstore 1\nset\tann\t\n#", 1),
];

#[test]
fn files_that_are_taken(rt: HostRuntime) {
    for (i, (file, users)) in TAKEN.iter().enumerate() {
        match opened(rt.alloc(), file, NONE_FAILS) {
            Some(store) => assert!(rt; store.len() == *users && store.takes_changes(), "of {i}"),
            None => panic!(rt; "{i} is taken"),
        }
    }
}

#[test]
fn a_file_is_made(rt: HostRuntime) {
    let Some((device, bytes)) = memory(rt.alloc(), b"", NONE_FAILS) else {
        panic!(rt; "memory is wanting")
    };
    match store_of::<Brand, MemoryDevice>(rt.alloc(), PLAIN_RULES, device, bytes, false) {
        Ok(store) => assert!(rt; store.device().bytes() == EMPTY && store.len() == 0),
        Err(_) => panic!(rt; "it is made"),
    }
}

// A folder of the test's own.
fn folder(rt: &HostRuntime) -> io::Result<String> {
    let key = RandomState::new(rt)?.hash_one(&0u8);
    let folder = format!(in rt.alloc(); "/tmp/table_program_{key:x}")?;
    fs::create_dir(rt, folder.as_str())?;
    Ok(folder)
}

// The name of a file there.
fn named(rt: &HostRuntime, folder: &str, name: &str) -> Option<String> {
    format!(in rt.alloc(); "{folder}/{name}").ok()
}

fn write(rt: &HostRuntime, name: &str, bytes: &[u8], mode: u32) -> bool {
    fs::write(rt, name, bytes).is_ok()
        && fs::set_permissions(rt, name, PermissionsExt::from_mode(mode)).is_ok()
}

fn has(rt: &HostRuntime, name: &str, bytes: &[u8]) -> bool {
    match fs::read(rt, name) {
        Ok(found) => found.as_slice() == bytes,
        Err(_) => false,
    }
}

#[test]
fn statuses_over_files_of_the_system(rt: HostRuntime) {
    let Ok(folder) = folder(&rt) else {
        panic!(rt; "no folder is made")
    };
    let (Some(name), Some(new)) = (
        named(&rt, folder.as_str(), "table"),
        named(&rt, folder.as_str(), ".table.pwstore-new"),
    ) else {
        panic!(rt; "memory is wanting")
    };
    let (name, new) = (name.as_str(), new.as_str());
    assert!(rt; compact_file(&rt, "pwstore", name) == 66);
    assert!(rt; export_file(&rt, "pwstore", name) == 66);
    assert!(rt; serve_file(&rt, "pwstore", folder.as_str(), PLAIN_RULES) == 66);
    // What no run has left is in the way of the first file.
    assert!(rt;
        write(&rt, new, b"mine", 0o600) && serve_file(&rt, "pwstore", name, PLAIN_RULES) == 73
    );
    assert!(rt; has(&rt, new, b"mine") && fs::remove_file(&rt, new).is_ok());
    assert!(rt;
        write(&rt, name, b"set\tann\t*\n", 0o600)
            && serve_file(&rt, "pwstore", name, PLAIN_RULES) == 65
    );
    assert!(rt; export_file(&rt, "pwstore", name) == 65);
    // With rights of others it isn't made anew, as an access control list may give them.
    assert!(rt; write(&rt, name, THREE, 0o640) && compact_file(&rt, "pwstore", name) == 73);
    assert!(rt; has(&rt, name, THREE));
    assert!(rt; write(&rt, name, THREE, 0o600) && compact_file(&rt, "pwstore", name) == 0);
    assert!(rt; export_file(&rt, "pwstore", name) == 0 && has(&rt, name, ANEW));
    assert!(rt; has(&rt, name, ANEW) && fs::remove_dir_all(&rt, folder.as_str()).is_ok());
}

// The users of `USERS` are set; what has no text or is no name is refused, and the others are set all the same.
const USERS: &[u8] = b"ann:!:19000:0:99999:7:::\nbob:$5\ncarl\ncl\teo:*\n";

const SET: &[u8] = b"#pwstore 1\nset\tann\t!\nset\tbob\t$5\n#";

#[test]
fn users_of_a_file(rt: HostRuntime) {
    let Ok(folder) = folder(&rt) else {
        panic!(rt; "no folder is made")
    };
    let (Some(name), Some(users)) = (
        named(&rt, folder.as_str(), "table"),
        named(&rt, folder.as_str(), "shadow"),
    ) else {
        panic!(rt; "out of memory")
    };
    let (name, users) = (name.as_str(), users.as_str());
    // Nothing is made where there is no file of users, or a folder has its name.
    assert!(rt; import_file(&rt, "pwstore", name, users, None, PLAIN_RULES) == 66);
    assert!(rt; import_file(&rt, "pwstore", name, folder.as_str(), None, PLAIN_RULES) == 66);
    assert!(rt; fs::read(&rt, name).is_err());
    assert!(rt;
        write(&rt, users, USERS, 0o600)
            && import_file(&rt, "pwstore", name, users, None, PLAIN_RULES) == 1
    );
    assert!(rt; has(&rt, name, SET) && has(&rt, users, USERS));
    // The words of a command line.
    let import = Some("import");
    assert!(rt; write(&rt, users, b"bob:!", 0o600));
    assert!(rt;
        table_action(&rt, "pwstore", name, PLAIN_RULES, import, Some(users), None) == Some(0)
    );
    assert!(rt;
        has(
            &rt,
            name,
            b"#pwstore 1\nset\tann\t!\nset\tbob\t$5\nset\tbob\t!\n#"
        )
    );
    assert!(rt;
        table_action(
            &rt,
            "pwstore",
            name,
            PLAIN_RULES,
            Some("compact"),
            None,
            None
        ) == Some(0)
    );
    assert!(rt; has(&rt, name, b"#pwstore 1\nset\tann\t!\nset\tbob\t!\n#"));
    assert!(rt;
        table_action(
            &rt,
            "pwstore",
            name,
            PLAIN_RULES,
            Some("export"),
            None,
            None
        ) == Some(0)
    );
    assert!(rt;
        table_action(
            &rt,
            "pwstore",
            name,
            PLAIN_RULES,
            Some("compact"),
            Some(users),
            None
        )
        .is_none()
    );
    assert!(rt;
        table_action(
            &rt,
            "pwstore",
            name,
            PLAIN_RULES,
            Some("export"),
            Some(users),
            None
        )
        .is_none()
    );
    assert!(rt;
        table_action(
            &rt,
            "pwstore",
            name,
            PLAIN_RULES,
            Some("imports"),
            Some(users),
            None
        )
        .is_none()
    );
    assert!(rt;
        table_action(&rt, "pwstore", name, PLAIN_RULES, Some("list"), None, None).is_none()
    );
    assert!(rt; table_action(&rt, "pwstore", name, PLAIN_RULES, None, Some(users), None).is_none());
    assert!(rt; fs::remove_dir_all(&rt, folder.as_str()).is_ok());
}

// A dump of a directory, whose third text isn't converted; its lines end with a carriage return and a line feed.
const DUMP: &[u8] = b"dn: uid=ann,dc=x\r\nuid: ann\r\nuserPassword: {CRYPT}$5$a$b\r\n\r\n\
    dn: cn=x\r\nuid: bob\r\nuserPassword: {CRYPT}!$5$c\r\n\r\ndn: cn=y\r\nuid: eve\r\nuserPassword: secret\r\n";

#[test]
fn users_of_another_maker(rt: HostRuntime) {
    let Ok(folder) = folder(&rt) else {
        panic!(rt; "no folder is made")
    };
    let (Some(name), Some(users)) = (
        named(&rt, folder.as_str(), "table"),
        named(&rt, folder.as_str(), "dump"),
    ) else {
        panic!(rt; "out of memory")
    };
    let (name, users) = (name.as_str(), users.as_str());
    let import = Some("import");
    assert!(rt; write(&rt, users, DUMP, 0o600));
    // No maker has this name, and no file is made.
    assert!(rt;
        table_action(
            &rt,
            "pwstore",
            name,
            PLAIN_RULES,
            import,
            Some(users),
            Some("LDIF")
        )
        .is_none()
    );
    assert!(rt; fs::read(&rt, name).is_err());
    assert!(rt;
        table_action(
            &rt,
            "pwstore",
            name,
            PLAIN_RULES,
            import,
            Some(users),
            Some("ldif")
        ) == Some(1)
    );
    assert!(rt; has(&rt, name, b"#pwstore 1\nset\tann\t$5$a$b\nset\tbob\t!\n#"));
    assert!(rt;
        write(&rt, users, b"carl:{CRYPT}$6$a$b:1:2\n", 0o600)
            && import_file(
                &rt,
                "pwstore",
                name,
                users,
                Some(Maker::Foreign(Foreign::Ldap)),
                PLAIN_RULES
            ) == 0
    );
    assert!(rt;
        has(
            &rt,
            name,
            b"#pwstore 1\nset\tann\t$5$a$b\nset\tbob\t!\nset\tcarl\t$6$a$b\n#"
        )
    );
    // Without 'import' a maker is for nothing.
    assert!(rt;
        table_action(
            &rt,
            "pwstore",
            name,
            PLAIN_RULES,
            Some("export"),
            None,
            Some("ldap")
        )
        .is_none()
    );
    assert!(rt;
        table_action(&rt, "pwstore", name, PLAIN_RULES, None, None, Some("ldap")).is_none()
    );
    assert!(rt; fs::remove_dir_all(&rt, folder.as_str()).is_ok());
}
