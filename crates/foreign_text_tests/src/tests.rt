//! Texts of Django 3.2, passlib 1.7.4 and the Python module argon2 21.1. The records for those of PBKDF2 were put together by
//! Python's base64 and passlib's `ab64_decode`.

use crate::asked::{fault_of, is_converted};
use foreign_text::{Foreign, ForeignFault, Unread};

// Foreign texts, and the stored texts for them.
const CONVERTED: &[(Foreign, &str, &str)] = &[
    (
        Foreign::Django,
        "bcrypt_sha256$$2b$12$z7iJH30X4a4mlj/yLFmlh.kTNMuCFWO04fO7zqSrOeJQE56Br0/aG",
        "$bcrypt-sha256-hex$2b$12$z7iJH30X4a4mlj/yLFmlh.kTNMuCFWO04fO7zqSrOeJQE56Br0/aG",
    ),
    (
        Foreign::Passlib,
        "$bcrypt-sha256$v=2,t=2b,r=5$rQ4YSmKXcMgu5A9G67oqZe$S9cUb0ixwFd041WWlme5LZJoDd3KoHC",
        "$bcrypt-sha256$v=2,t=2b,r=5$rQ4YSmKXcMgu5A9G67oqZe$S9cUb0ixwFd041WWlme5LZJoDd3KoHC",
    ),
    (
        Foreign::Django,
        "pbkdf2_sha256$1$seasalt2$okMx3z2N312lq0ehHCdGm1whcV9TBaPbzGwzrkepq98=",
        "$pbkdf2-sha256$i=1$c2Vhc2FsdDI$okMx3z2N312lq0ehHCdGm1whcV9TBaPbzGwzrkepq98",
    ),
    (
        Foreign::Django,
        "pbkdf2_sha256$1000$abcdefgh$GHUbOYNfzc/1XP2MWJxQ0OB83AthJA5LJEJcJ6ahzFY=",
        "$pbkdf2-sha256$i=1000$YWJjZGVmZ2g$GHUbOYNfzc/1XP2MWJxQ0OB83AthJA5LJEJcJ6ahzFY",
    ),
    (
        Foreign::Django,
        "pbkdf2_sha256$3$äöü€$1u0BLvqNcjmT6imfM7A9jQe10VzJa4DZK+RHSRMA2p4=",
        "$pbkdf2-sha256$i=3$w6TDtsO84oKs$1u0BLvqNcjmT6imfM7A9jQe10VzJa4DZK+RHSRMA2p4",
    ),
    (
        Foreign::Django,
        "argon2$argon2id$v=19$m=102400,t=2,p=8$c2FsdHNhbHRzYWx0$GBes5pzD7516flSwZmb4ug",
        "$argon2id$v=19$m=102400,t=2,p=8$c2FsdHNhbHRzYWx0$GBes5pzD7516flSwZmb4ug",
    ),
    (
        Foreign::Django,
        "bcrypt$$2b$04$IDYQiErtpPhiHsTxJJaFNeyHzoDMUA/Uj5Zel6n4M8ud0TGjMAZYC",
        "$2b$04$IDYQiErtpPhiHsTxJJaFNeyHzoDMUA/Uj5Zel6n4M8ud0TGjMAZYC",
    ),
    (Foreign::Django, "$5$saltstring$x", "$5$saltstring$x"),
    (
        Foreign::Ldap,
        "{PBKDF2-SHA256}7$././././././././$2q/VDzi8QUSjt4RT0dNGZrTsYeBu3sb8sszBxgEgh40",
        "$pbkdf2-sha256$i=7$+/+/+/+/+/+/+/+/$2q/VDzi8QUSjt4RT0dNGZrTsYeBu3sb8sszBxgEgh40",
    ),
    (
        Foreign::Ldap,
        "{PBKDF2-SHA256}7$YWJjZGVmZ2g$oNzBqFb03A.goX/CUpviOBd1EZ5cZP30Ade7.vnhkhM",
        "$pbkdf2-sha256$i=7$YWJjZGVmZ2g$oNzBqFb03A+goX/CUpviOBd1EZ5cZP30Ade7+vnhkhM",
    ),
    (
        Foreign::Ldap,
        "{CRYPT}$1$C3LmYGvw$LWNS4F1sNOhKx3fTpIH3s.",
        "$1$C3LmYGvw$LWNS4F1sNOhKx3fTpIH3s.",
    ),
    (
        Foreign::Ldap,
        "{crypt}$1$C3LmYGvw$LWNS4F1sNOhKx3fTpIH3s.",
        "$1$C3LmYGvw$LWNS4F1sNOhKx3fTpIH3s.",
    ),
    (
        Foreign::Ldap,
        "{ARGON2}$argon2i$v=19$m=292,t=1,p=4$WBvU1JEofQW/TdcIOMXPFA$gjbLH9jEExjvYq4nNndpww",
        "$argon2i$v=19$m=292,t=1,p=4$WBvU1JEofQW/TdcIOMXPFA$gjbLH9jEExjvYq4nNndpww",
    ),
    (
        Foreign::Passlib,
        "$pbkdf2-sha256$7$././././././././$2q/VDzi8QUSjt4RT0dNGZrTsYeBu3sb8sszBxgEgh40",
        "$pbkdf2-sha256$i=7$+/+/+/+/+/+/+/+/$2q/VDzi8QUSjt4RT0dNGZrTsYeBu3sb8sszBxgEgh40",
    ),
    (
        Foreign::Passlib,
        "$pbkdf2-sha256$7$AAECAwQFBgcICQoLDA0ODxAREhMUFRYXGBkaGxwdHh8gISIjJCUmJygpKissLS4v$qui.4ZHfyiWOKCdqocsBmEszyk1mPmqQ4xz7pNRvaPw",
        "$pbkdf2-sha256$i=7$AAECAwQFBgcICQoLDA0ODxAREhMUFRYXGBkaGxwdHh8gISIjJCUmJygpKissLS4v$qui+4ZHfyiWOKCdqocsBmEszyk1mPmqQ4xz7pNRvaPw",
    ),
    (
        Foreign::Ldap,
        "{PBKDF2-SHA512}7$././././././././$ppFedq8elf5OVwSBUdtauKN5zT1l.1ShAJzlc/njXQOkHF1uhbej/cilXYCK.QAXaHMEL5ev4hgeXx77QcU..A",
        "$pbkdf2-sha512$i=7$+/+/+/+/+/+/+/+/$ppFedq8elf5OVwSBUdtauKN5zT1l+1ShAJzlc/njXQOkHF1uhbej/cilXYCK+QAXaHMEL5ev4hgeXx77QcU++A",
    ),
    (
        Foreign::Ldap,
        "{pbkdf2-sha512}7$YWJjZGVmZ2g$QB4lyLY5MDmsMNUCYLZH2QEGr5FThdP3MvCnw5io4OWVGbSwILJD5krweRfPTiM/CyBlm7LPbnoEaD1M06jb3Q",
        "$pbkdf2-sha512$i=7$YWJjZGVmZ2g$QB4lyLY5MDmsMNUCYLZH2QEGr5FThdP3MvCnw5io4OWVGbSwILJD5krweRfPTiM/CyBlm7LPbnoEaD1M06jb3Q",
    ),
    (
        Foreign::Passlib,
        "$pbkdf2-sha512$1212$RHY0Fr3IDMSVO/RSZyb5ow$eNLfBK.eVozomMr.1gYa17k9B7KIK25NOEshvhrSX.esqY3s.FvWZViXz4KoLlQI.BzY/YTNJOiKc5gBYFYGww",
        "$pbkdf2-sha512$i=1212$RHY0Fr3IDMSVO/RSZyb5ow$eNLfBK+eVozomMr+1gYa17k9B7KIK25NOEshvhrSX+esqY3s+FvWZViXz4KoLlQI+BzY/YTNJOiKc5gBYFYGww",
    ),
    (
        Foreign::Passlib,
        "$pbkdf2-sha512$7$AAECAwQFBgcICQoLDA0ODxAREhMUFRYXGBkaGxwdHh8gISIjJCUmJygpKissLS4v$QL9iWiP93yjDMztDCJVaMdhJou.eMBwDbSy4nQyjXwyHy4kYuarxlaWwCfk2AZj7oEY78ipIBSo/tzcyyPlo9g",
        "$pbkdf2-sha512$i=7$AAECAwQFBgcICQoLDA0ODxAREhMUFRYXGBkaGxwdHh8gISIjJCUmJygpKissLS4v$QL9iWiP93yjDMztDCJVaMdhJou+eMBwDbSy4nQyjXwyHy4kYuarxlaWwCfk2AZj7oEY78ipIBSo/tzcyyPlo9g",
    ),
    (
        Foreign::Passlib,
        "$pbkdf2-sha256$i=7$YWJjZGVmZ2g$oNzBqFb03A+goX/CUpviOBd1EZ5cZP30Ade7+vnhkhM",
        "$pbkdf2-sha256$i=7$YWJjZGVmZ2g$oNzBqFb03A+goX/CUpviOBd1EZ5cZP30Ade7+vnhkhM",
    ),
    (
        Foreign::Passlib,
        "$scrypt$ln=2,r=1,p=1$gxCiVGqNcW6t9R4jRKi1Fg$0+gitlFsCMfvpdALX7vdS308go6Qf+jgh3fjf+QhYUc",
        "$scrypt$ln=2,r=1,p=1$gxCiVGqNcW6t9R4jRKi1Fg$0+gitlFsCMfvpdALX7vdS308go6Qf+jgh3fjf+QhYUc",
    ),
];

fn converted() -> &'static [(Foreign, &'static str, &'static str)] {
    CONVERTED
}

#[test]
fn converted_texts(rt: HostRuntime) {
    for (foreign, text, stored) in converted() {
        assert!(rt; is_converted(*foreign, text, stored), "{text}");
        assert!(rt; is_converted(*foreign, stored, stored), "{stored}");
    }
}

// Texts of schemes that aren't read.
const UNREAD: &[(Foreign, &str, Unread, &str)] = &[
    (
        Foreign::Django,
        "md5$8GAF0wAwaIIN$8bbf700929d8d9746e53ad0f3bef5162",
        Unread::Md5,
        "unsupported-md5",
    ),
    (
        Foreign::Django,
        "unsalted_sha1$$x",
        Unread::Sha1,
        "unsupported-sha1",
    ),
    (
        Foreign::Django,
        "crypt$$ud03EAGigf5FA",
        Unread::DesCrypt,
        "unsupported-des-crypt",
    ),
    (
        Foreign::Django,
        "!1zFqYYmyw7",
        Unread::Other,
        "unsupported-scheme",
    ),
    (
        Foreign::Ldap,
        "{CRYPT}ud03EAGigf5FA",
        Unread::DesCrypt,
        "unsupported-des-crypt",
    ),
    (
        Foreign::Ldap,
        "{SHA384}YRiy2WtyfPFZnm97zr4W",
        Unread::Sha2,
        "unsupported-sha2",
    ),
    (
        Foreign::Ldap,
        "secret",
        Unread::Cleartext,
        "unsupported-cleartext",
    ),
    (
        Foreign::Ldap,
        "{SASL}ann@example.org",
        Unread::Other,
        "unsupported-scheme",
    ),
    (
        Foreign::Passlib,
        "PQBZ.zDHBiLKY",
        Unread::Other,
        "unsupported-scheme",
    ),
];

fn unread() -> &'static [(Foreign, &'static str, Unread, &'static str)] {
    UNREAD
}

#[test]
fn unread_schemes(rt: HostRuntime) {
    for (foreign, text, scheme, word) in unread() {
        let fault = ForeignFault::Unread(*scheme);
        assert!(rt; fault_of(*foreign, text) == Some(fault), "{text}");
        assert!(rt; fault.word() == *word, "{text}");
    }
}

// Texts with a fault, and its word. Of the spare bits of the last character of a key or a salt one is set in two of them.
const FAULTS: &[(Foreign, &str, ForeignFault, &str)] = &[
    (
        Foreign::Django,
        "bcrypt_sha256$$2b$04$0v2TPSqrKaDKURXtLIvyu.",
        ForeignFault::Form,
        "foreign-form",
    ),
    (
        Foreign::Django,
        "bcrypt_sha256$$1b$12$z7iJH30X4a4mlj/yLFmlh.kTNMuCFWO04fO7zqSrOeJQE56Br0/aG",
        ForeignFault::Form,
        "foreign-form",
    ),
    (
        Foreign::Django,
        "bcrypt_sha256$$2b$12$z7iJH30X4a4mlj/yLFmlh.kTNMuCFWO04fO7zqSrOeJQE56Br0/aGx",
        ForeignFault::Form,
        "foreign-form",
    ),
    (
        Foreign::Django,
        "pbkdf2_sha256$1$abcdefgh",
        ForeignFault::Form,
        "foreign-form",
    ),
    (
        Foreign::Django,
        "pbkdf2_sha256$1",
        ForeignFault::Form,
        "foreign-form",
    ),
    (
        Foreign::Django,
        "pbkdf2_sha256$",
        ForeignFault::Form,
        "foreign-form",
    ),
    (
        Foreign::Django,
        "pbkdf2_sha256$1$abcdefgh$okMx3z2N312lq0ehHCdGm1whcV9TBaPbzGwzrkepq98=$",
        ForeignFault::Form,
        "foreign-form",
    ),
    (
        Foreign::Django,
        "pbkdf2_sha256$01$abcdefgh$okMx3z2N312lq0ehHCdGm1whcV9TBaPbzGwzrkepq98=",
        ForeignFault::Rounds,
        "foreign-rounds",
    ),
    (
        Foreign::Django,
        "pbkdf2_sha256$$abcdefgh$okMx3z2N312lq0ehHCdGm1whcV9TBaPbzGwzrkepq98=",
        ForeignFault::Rounds,
        "foreign-rounds",
    ),
    (
        Foreign::Django,
        "pbkdf2_sha256$4294967296$abcdefgh$okMx3z2N312lq0ehHCdGm1whcV9TBaPbzGwzrkepq98=",
        ForeignFault::Rounds,
        "foreign-rounds",
    ),
    (
        Foreign::Django,
        "pbkdf2_sha256$1$seasalt$okMx3z2N312lq0ehHCdGm1whcV9TBaPbzGwzrkepq98=",
        ForeignFault::SaltLength,
        "foreign-salt-length",
    ),
    (
        Foreign::Django,
        "pbkdf2_sha256$1$xxxxxxxxxxxxxxxxxxxxxxxxxxxxxxxxxxxxxxxxxxxxxxxxx$okMx3z2N312lq0ehHCdGm1whcV9TBaPbzGwzrkepq98=",
        ForeignFault::SaltLength,
        "foreign-salt-length",
    ),
    (
        Foreign::Django,
        "pbkdf2_sha256$1$abcdefgh$okMx3z2N312lq0ehHCdGm1whcV9TBaPbzGwzrkepq98",
        ForeignFault::Hash,
        "foreign-hash",
    ),
    (
        Foreign::Django,
        "pbkdf2_sha256$1$abcdefgh$okMx3z2N312lq0ehHCdGm1whcV9TBaPbzGwzrkepq99=",
        ForeignFault::Hash,
        "foreign-hash",
    ),
    (
        Foreign::Django,
        "pbkdf2_sha256$1$abcdefgh$MTIzNDU2Nzg5",
        ForeignFault::HashLength,
        "foreign-hash-length",
    ),
    (
        Foreign::Django,
        "argon2$2b$04$IDYQiErtpPhiHsTxJJaFNe",
        ForeignFault::Form,
        "foreign-form",
    ),
    (
        Foreign::Django,
        "bcrypt$$1$abcdefgh$x",
        ForeignFault::Form,
        "foreign-form",
    ),
    (
        Foreign::Ldap,
        "{PBKDF2-SHA256}+1$YWJjZGVmZ2g$okMx3z2N312lq0ehHCdGm1whcV9TBaPbzGwzrkepq98",
        ForeignFault::Rounds,
        "foreign-rounds",
    ),
    (
        Foreign::Ldap,
        "{PBKDF2-SHA256}1$YWJjZGVmZ2h$okMx3z2N312lq0ehHCdGm1whcV9TBaPbzGwzrkepq98",
        ForeignFault::Salt,
        "foreign-salt",
    ),
    (
        Foreign::Ldap,
        "{PBKDF2-SHA256}1$AAAAAAAAAAAAAAAAAAAAAAAAAAAAAAAAAAAAAAAAAAAAAAAAAAAAAAAAAAAAAAAAAAAAAAAAAAAAAAAAAAAAAAAAAAAAAAAAAAAAAAAAAAAAAAAAAAAAAAAAAAAAAAAAAAAA$okMx3z2N312lq0ehHCdGm1whcV9TBaPbzGwzrkepq98",
        ForeignFault::Salt,
        "foreign-salt",
    ),
    (
        Foreign::Ldap,
        "{PBKDF2-SHA256}1$YWJjZGVmZw$okMx3z2N312lq0ehHCdGm1whcV9TBaPbzGwzrkepq98",
        ForeignFault::SaltLength,
        "foreign-salt-length",
    ),
    (
        Foreign::Ldap,
        "{ARGON2}$5$x$y",
        ForeignFault::Form,
        "foreign-form",
    ),
    (
        Foreign::Ldap,
        "{PBKDF2-SHA512}39$RajV.j.nNAYAgFDq3XuvVQ$x",
        ForeignFault::Hash,
        "foreign-hash",
    ),
    (
        Foreign::Passlib,
        "$pbkdf2-sha512$30$GKP03luLsRYCYMz5P2fMGQ",
        ForeignFault::Form,
        "foreign-form",
    ),
    (
        Foreign::Passlib,
        "$pbkdf2-sha256$1$YWJjZGVmZ2g$okMx3z2N312lq0ehHCdGm1whcV9TBaPbzGwzrkepq98=",
        ForeignFault::Hash,
        "foreign-hash",
    ),
    (
        Foreign::Passlib,
        "$pbkdf2-sha256$1$YWJjZGVmZ2g$AAAAAAAAAAAAAAAAAAAAAAAAAAAAAAAAAAAAAAAAAAAAAAAAAAAAAAAAAAAAAAAAAAAAAAAAAAAAAAAAAAAAAAAAAAAA",
        ForeignFault::HashLength,
        "foreign-hash-length",
    ),
    (
        Foreign::Passlib,
        "$pbkdf2-sha256$1$YWJjZGVmZ2g$AAAAAAAAAAAAAAAAAAAAAAAAAAAAAAAAAAAAAAAAAAAAAAAAAAAAAAAAAAAAAAAAAAAAAAAAAAAAAAAAAAAAAAAAAAAAAAAAAAAAAAAAAAAAAAAAAAAAAAAAAAAAAAAAAAAA",
        ForeignFault::Hash,
        "foreign-hash",
    ),
    (
        Foreign::Passlib,
        "$pbkdf2-sha256$1$+/+/+/+/+/+/+/+/$okMx3z2N312lq0ehHCdGm1whcV9TBaPbzGwzrkepq98",
        ForeignFault::Salt,
        "foreign-salt",
    ),
];

fn fault_rows() -> &'static [(Foreign, &'static str, ForeignFault, &'static str)] {
    FAULTS
}

#[test]
fn faults(rt: HostRuntime) {
    for (foreign, text, fault, word) in fault_rows() {
        assert!(rt; fault_of(*foreign, text) == Some(*fault), "{text}");
        assert!(rt; fault.word() == *word, "{text}");
    }
}
