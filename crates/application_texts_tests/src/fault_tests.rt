//! Texts of applications with a fault: the first cause is told, and nothing is put into the buffer that was lent.

use application_texts::{Application, Maker, maker_text};
use foreign_text::{Foreign, ForeignFault, MadeText, Unread};

// The fault, if there is one, and nothing was put into the buffer that was lent.
pub(crate) fn fault_of(maker: Maker, text: &str) -> Option<ForeignFault> {
    let mut made = MadeText::from_slice(b"as it was");
    let fault = maker_text(maker, text, &mut made).err();
    if made.as_slice() == b"as it was".as_slice() {
        fault
    } else {
        None
    }
}

// Texts with a fault, the first of those that they have.
const FAULTS: &[(Application, &str, ForeignFault)] = &[
    (Application::Jenkins, "#jbcrypt:", ForeignFault::Form),
    (Application::Jenkins, "#jbcrypt:$6$x", ForeignFault::Form),
    (Application::Jenkins, "#jbcrypt:2a", ForeignFault::Form),
    (
        Application::Jenkins,
        "jbcrypt:$2a$04$x",
        ForeignFault::Unread(Unread::Other),
    ),
    (
        Application::Jenkins,
        "",
        ForeignFault::Unread(Unread::Other),
    ),
    (
        Application::Jenkins,
        "plain",
        ForeignFault::Unread(Unread::Other),
    ),
    (
        Application::Jenkins,
        "$PBKDF2$HMACSHA512:1000:942a089dd8c2b7426288e30771e80c36$93939393939393939393939393939393939393939393939393939393939393939393939393939393939393939393939393939393939393939393939393939393$",
        ForeignFault::Form,
    ),
    (
        Application::Jenkins,
        "$PBKDF2$HMACSHA512:1000942a089dd8c2b7426288e30771e80c36$93939393939393939393939393939393939393939393939393939393939393939393939393939393939393939393939393939393939393939393939393939393",
        ForeignFault::Form,
    ),
    (
        Application::Jenkins,
        "$PBKDF2$HMACSHA512:1000:1:942a089dd8c2b7426288e30771e80c36$93939393939393939393939393939393939393939393939393939393939393939393939393939393939393939393939393939393939393939393939393939393",
        ForeignFault::Form,
    ),
    (
        Application::Jenkins,
        "$PBKDF2$HMACSHA512:1000:942a089dd8c2b7426288e30771e80c3693939393939393939393939393939393939393939393939393939393939393939393939393939393939393939393939393939393939393939393939393939393",
        ForeignFault::Form,
    ),
    (
        Application::Jenkins,
        "$PBKDF2$HMACSHA512:0100:942a089dd8c2b7426288e30771e80c36$93939393939393939393939393939393939393939393939393939393939393939393939393939393939393939393939393939393939393939393939393939393",
        ForeignFault::Rounds,
    ),
    (
        Application::Jenkins,
        "$PBKDF2$HMACSHA512:1000:942A089dd8c2b7426288e30771e80c36$93939393939393939393939393939393939393939393939393939393939393939393939393939393939393939393939393939393939393939393939393939393",
        ForeignFault::Salt,
    ),
    (
        Application::Jenkins,
        "$PBKDF2$HMACSHA512:1000:94a089dd8c2b7426288e30771e80c36$93939393939393939393939393939393939393939393939393939393939393939393939393939393939393939393939393939393939393939393939393939393",
        ForeignFault::Salt,
    ),
    (
        Application::Jenkins,
        "$PBKDF2$HMACSHA512:1000:94949494949494$93939393939393939393939393939393939393939393939393939393939393939393939393939393939393939393939393939393939393939393939393939393",
        ForeignFault::SaltLength,
    ),
    (
        Application::Jenkins,
        "$PBKDF2$HMACSHA512:1000:94949494949494949494949494949494949494949494949494949494949494949494949494949494949494949494949494$93939393939393939393939393939393939393939393939393939393939393939393939393939393939393939393939393939393939393939393939393939393",
        ForeignFault::SaltLength,
    ),
    (
        Application::Jenkins,
        "$PBKDF2$HMACSHA512:1000:942a089dd8c2b7426288e30771e80c36$9393939393939393939393939393939393939393939393939393939393939393939393939393939393939393939393939393939393939393939393939393939",
        ForeignFault::Hash,
    ),
    (
        Application::Jenkins,
        "$PBKDF2$HMACSHA512:1000:942a089dd8c2b7426288e30771e80c36$939393939393939393939393939393939393939393939393939393939393939393939393939393939393939393939393939393939393939393939393939393AA",
        ForeignFault::Hash,
    ),
    (
        Application::Jenkins,
        "$PBKDF2$HMACSHA512:1000:942a089dd8c2b7426288e30771e80c36$9393939393939393939393939393939393939393939393939393939393939393939393939393939393939393939393939393939393939393939393939393939300",
        ForeignFault::Hash,
    ),
    (
        Application::Jenkins,
        "$PBKDF2$HMACSHA512:1000:942a089dd8c2b7426288e30771e80c36$939393939393939393",
        ForeignFault::HashLength,
    ),
    (
        Application::Nextcloud,
        "",
        ForeignFault::Unread(Unread::Other),
    ),
    (Application::Nextcloud, "1|", ForeignFault::Form),
    (Application::Nextcloud, "1|$argon2i$x", ForeignFault::Form),
    (Application::Nextcloud, "2|$argon2id$x", ForeignFault::Form),
    (Application::Nextcloud, "3|$argon2i$x", ForeignFault::Form),
    (
        Application::Nextcloud,
        "4|$2y$10$x",
        ForeignFault::Unread(Unread::Other),
    ),
    (
        Application::Nextcloud,
        "|$2y$",
        ForeignFault::Unread(Unread::Other),
    ),
    (
        Application::Nextcloud,
        "sha1|x",
        ForeignFault::Unread(Unread::Other),
    ),
    (
        Application::Nextcloud,
        "1$2y$10$x",
        ForeignFault::Unread(Unread::Other),
    ),
    (Application::Nextcloud, "2|$2y$05$x", ForeignFault::Form),
    (Application::HomeAssistant, "", ForeignFault::Form),
    (Application::HomeAssistant, "JDYkeA==", ForeignFault::Form),
    (
        Application::HomeAssistant,
        "JDJiJDA0JGE6Yg==",
        ForeignFault::Form,
    ),
    (
        Application::HomeAssistant,
        "JDJiJDA0JGEJYg==",
        ForeignFault::Form,
    ),
    (
        Application::HomeAssistant,
        "JDJiJDA0JGEgYg==",
        ForeignFault::Form,
    ),
    (Application::HomeAssistant, "MmIk", ForeignFault::Form),
    (
        Application::HomeAssistant,
        "JDJiJDA0JGFi=",
        ForeignFault::Form,
    ),
    (Application::HomeAssistant, "JDJi-", ForeignFault::Form),
    (
        Application::HomeAssistant,
        "AAAAAAAAAAAAAAAAAAAAAAAAAAAAAAAAAAAAAAAAAAAAAAAAAAAAAAAAAAAAAAAAAAAAAAAAAAAAAAAAAAAAAAAAAAAAAAAAAAAAAAAAAAAAAAAAAAAAAAAAAAAAAAAAAAAA",
        ForeignFault::Form,
    ),
    (
        Application::CouchDb,
        "-pbkdf2-abababababababababababababababababababab,0123456789abcdef,600,1",
        ForeignFault::Form,
    ),
    (
        Application::CouchDb,
        "-pbkdf2-abababababababababababababababababababab,0123456789abcdef",
        ForeignFault::Form,
    ),
    (
        Application::CouchDb,
        "-pbkdf2-abababababababababababababababababababab,0123456789abcdef,0600",
        ForeignFault::Rounds,
    ),
    (
        Application::CouchDb,
        "-pbkdf2-abababababababababababababababababababab,0123456789abcdef,",
        ForeignFault::Rounds,
    ),
    (
        Application::CouchDb,
        "-pbkdf2-abababababababababababababababababababab,0123456,600",
        ForeignFault::SaltLength,
    ),
    (
        Application::CouchDb,
        "-pbkdf2-abababababababababababababababababababab,0000000000000000000000000000000000000000000000000,600",
        ForeignFault::SaltLength,
    ),
    (
        Application::CouchDb,
        "-pbkdf2-abABabABabABabABabABabABabABabABabABabAB,0123456789abcdef,600",
        ForeignFault::Hash,
    ),
    (
        Application::CouchDb,
        "-pbkdf2-ababababababababab,0123456789abcdef,600",
        ForeignFault::HashLength,
    ),
    (
        Application::CouchDb,
        "-pbkdf2-ababababababababababababababababababababababababababababababababababababababababababababababababababababababababababababababababab,0123456789abcdef,600",
        ForeignFault::Hash,
    ),
    (
        Application::CouchDb,
        "-pbkdf2-sha224,abababababababababababababababababababab,0123456789abcdef,600",
        ForeignFault::Unread(Unread::Sha2),
    ),
    (
        Application::CouchDb,
        "-pbkdf2-sha384,abababababababababababababababababababab,0123456789abcdef,600",
        ForeignFault::Unread(Unread::Sha2),
    ),
    (
        Application::CouchDb,
        "-pbkdf2-md5,abababababababababababababababababababab,0123456789abcdef,600",
        ForeignFault::Form,
    ),
    (
        Application::CouchDb,
        "-hashed-abababababababababababababababababababab,0123",
        ForeignFault::Unread(Unread::Sha1),
    ),
    (
        Application::CouchDb,
        "secret",
        ForeignFault::Unread(Unread::Cleartext),
    ),
    (
        Application::CouchDb,
        "",
        ForeignFault::Unread(Unread::Cleartext),
    ),
    (
        Application::CouchDb,
        "*x",
        ForeignFault::Unread(Unread::Cleartext),
    ),
    (
        Application::CouchDb,
        "-pbkdf2",
        ForeignFault::Unread(Unread::Cleartext),
    ),
    (
        Application::Grafana,
        "1313131313131313131313131313131313131313131313131313131313131313131313131313131313131313131313131313:abcdefghij:",
        ForeignFault::Form,
    ),
    (
        Application::Grafana,
        "1313131313131313131313131313131313131313131313131313131313131313131313131313131313131313131313131313abcdefghij",
        ForeignFault::Form,
    ),
    (
        Application::Grafana,
        "1313131313131313131313131313131313131313131313131313131313131313131313131313131313131313131313131313:abcdefg",
        ForeignFault::SaltLength,
    ),
    (
        Application::Grafana,
        "1313131313131313131313131313131313131313131313131313131313131313131313131313131313131313131313131313:aaaaaaaaaaaaaaaaaaaaaaaaaaaaaaaaaaaaaaaaaaaaaaaaa",
        ForeignFault::SaltLength,
    ),
    (
        Application::Grafana,
        "AAAAAAAAAAAAAAAAAAAAAAAAAAAAAAAAAAAAAAAAAAAAAAAAAAAAAAAAAAAAAAAAAAAAAAAAAAAAAAAAAAAAAAAAAAAAAAAAAAAA:abcdefghij",
        ForeignFault::Hash,
    ),
    (
        Application::Grafana,
        "13131313131313131313131313131313131313131313131313131313131313131313131313131313131313131313131313:abcdefghij",
        ForeignFault::HashLength,
    ),
    (
        Application::Grafana,
        "131313131313131313131313131313131313131313131313131313131313131313131313131313131313131313131313131313:abcdefghij",
        ForeignFault::HashLength,
    ),
    (
        Application::Grafana,
        "131313131313131313:abcdefghij",
        ForeignFault::HashLength,
    ),
    (
        Application::Grafana,
        "111111111111111111111111111111111111111111111111111111111111111111111111111111111111111111111111111:abcdefghij",
        ForeignFault::Hash,
    ),
    (Application::Grafana, "", ForeignFault::Form),
    (Application::Grafana, "plain", ForeignFault::Form),
];

fn faults() -> &'static [(Application, &'static str, ForeignFault)] {
    FAULTS
}

#[test]
fn first_faults(rt: HostRuntime) {
    for (application, text, fault) in faults() {
        assert!(rt;
            fault_of(Maker::Application(*application), text) == Some(*fault),
            "{text}"
        );
    }
}

#[test]
fn first_fault_of_foreign_text(rt: HostRuntime) {
    let maker = Maker::Foreign(Foreign::Grub);
    assert!(rt; fault_of(maker, "grub.pbkdf2.sha512.1.00") == Some(ForeignFault::Form));
}
