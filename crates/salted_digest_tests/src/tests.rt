//! Texts of Apache, Dovecot, 389-ds, passlib and OpenSSL, and each fault.

ghost use Rattle.std.specs.Prelude.{◌≤◌, length};

use base64ct::{Base64, Counts, Encoding};
use salted_digest::{
    DigestHash, SaltedFault, laws, salted_check, salted_check_counted, salted_digest, text_hash,
};

// The passwords and the salts of the table are the fronts of these.
const PASSWORD: &[u8] =
    b"abcdefghijklmnopqrstuvwxyzABCDEFGHIJKLMNOPQRSTUVWXYZ0123456789abcdefghijklmnopqrstuvwxyzABCDEFGHIJKLMNOPQRSTUVWXYZ0123456789\xc3\xa9\xff\x80\x01 \t~zyxwvutsrqponmlkjihgfedcbaZYXWVUTSRQPONMLKJIHGFEDCBA9876543210zyxwvutsrqponmlkjihgfedcbaZYXWVUTSRQPONMLKJIHGFEDCBA9876543210zyxwvutsrqponmlkjihgfedcbaZYXWVUTSRQPONMLKJI";

const SALT: &[u8] =
    b"\xc8\xed\x127\\\x81\xa6\xcb\xf0\x15:_\x84\xa9\xce\xf3\x18=b\x87\xac\xd1\xf6\x1b@e\x8a\xaf\xd4\xf9\x1eCh\x8d\xb2\xd7\xfc!Fk\x90\xb5\xda\xff$In\x93\xb8\xdd\x02'Lq\x96\xbb\xe0\x05*Ot\x99\xbe\xe3\x08-Rw\x9c\xc1\xe6\x0b0Uz\x9f\xc4\xe9\x0e3X}\xa2\xc7\xec\x116[\x80\xa5\xca\xef\x149^\x83\xa8\xcd\xf2\x17<a\x86\xab\xd0\xf5\x1a?d\x89\xae\xd3\xf8\x1dBg\x8c\xb1\xd6\xfb Ej\x8f\xb4\xd9\xfe#Hm\x92\xb7\xdc\x01&Kp\x95\xba\xdf";

// A hash function, the lengths of a password and a salt, and the digest in Base64, of Python's hashlib and of OpenSSL.
const DIGESTS: &[(DigestHash, usize, usize, &str)] = &[
    (DigestHash::Md5, 0, 0, "1B2M2Y8AsgTpgAmY7PhCfg=="),
    (DigestHash::Md5, 1, 48, "lFdzfeNAmL5oxmw5lA7gjg=="),
    (DigestHash::Md5, 55, 1, "2AuCzgDzeGwJ9jCoLoqr/g=="),
    (DigestHash::Md5, 64, 8, "Ut/ai7KArK6t0A1CPsBCqg=="),
    (DigestHash::Md5, 300, 140, "cct8y+juCyjVDdD98+Uzzw=="),
    (DigestHash::Sha1, 0, 1, "jB5qtCcHksUTBOoG9H3CDOUbpXs="),
    (DigestHash::Sha1, 8, 4, "P3QbDrGcX96+uiLZaLCVPRszw4g="),
    (DigestHash::Sha1, 60, 4, "LjaUmN40nxymP2AuOfHiE9Vt+Ig="),
    (DigestHash::Sha1, 64, 0, "6jMJDqw6CEqJrr7L27zFxuDlbyM="),
    (DigestHash::Sha1, 120, 33, "rL1Rfdhw2zO8MD/NeXJjALhhDOo="),
    (
        DigestHash::Sha256,
        0,
        0,
        "47DEQpj8HBSa+/TImW+5JCeuQeRkm5NMpJWZG3hSuFU=",
    ),
    (
        DigestHash::Sha256,
        20,
        16,
        "4dJ7DxuMpUJH3apkvkdEJFWbfJkCqICBMppT0u4DtkE=",
    ),
    (
        DigestHash::Sha256,
        63,
        3,
        "qODOpvwxbHL+XVRZa88OMRqK1h45eOMaPuI/LeyTfOk=",
    ),
    (
        DigestHash::Sha256,
        64,
        64,
        "kNcW1/m1aNM212M1U0OWg4B069F4gygrHSw9C3TovoU=",
    ),
    (
        DigestHash::Sha256,
        255,
        47,
        "9tuP8RvIsk5WgkCmWZrsmL7E6h4iJ3IPBKr8npwBFu0=",
    ),
    (
        DigestHash::Sha512,
        0,
        2,
        "1K5CGm4t5HrAOebAsbxAhG2mlaDo8NDMysLix8zW+nZ1EFtmmMR8RjcykCjRwB3FrAV+ZtLUc9QO1LnAVZD6kQ==",
    ),
    (
        DigestHash::Sha512,
        9,
        16,
        "EKA+wbkL4MWvFbm25K6qleNMwdckBHugnFD31VUrmXEDCyM4nTw+8iFdE0oiQMQUj8uZvwL19kQxztEb+/DCFg==",
    ),
    (
        DigestHash::Sha512,
        112,
        8,
        "6/fyMKknmZ/ZfSB9aIUDbRw1KS4pW5s0JbYePyljQSOe+cK2GWL9wyip2EH2tJ+hneh9rdx4vjyjTZHXfJs18A==",
    ),
    (
        DigestHash::Sha512,
        127,
        1,
        "PTQt6GTzT5/Ud8CvsE+la/4HFCeUlu7eztbMJFukzEhKCWYbjIgmYu4aOy7kgYUkuKUyeNV0QPgI2MO6F4pg4Q==",
    ),
    (
        DigestHash::Sha512,
        300,
        139,
        "coACCitk8qyj22ltGgivy6K5Tdc7CW0jvgUBz3afZCsOac/D5UR12jam4CDmw8OHytUPYRqPfMnaOQbUxuuIjw==",
    ),
];

// The first bytes of a text.
fn front(bytes: &[u8], count: usize) -> &[u8]
    ensures { length result.now ≤ length bytes.now }
{
    if count < bytes.len() {
        &bytes[..count]
    } else {
        bytes
    }
}

// Whether a text is the Base64 of a digest.
fn is_digest(hash: DigestHash, password: &[u8], salt: &[u8], text: &str) -> bool {
    let digest = salted_digest(hash, password, salt);
    let mut room = [0; 88];
    digest.len() == hash.size() && Base64::encode(digest.as_slice(), &mut room) == Ok(text)
}

#[test]
fn digests(rt: HostRuntime) {
    for (hash, password, salt, text) in DIGESTS {
        let is = is_digest(*hash, front(PASSWORD, *password), front(SALT, *salt), text);
        assert!(rt; is, "{text}");
    }
}

#[test]
fn hash_functions(rt: HostRuntime) {
    assert!(rt; DigestHash::Md5.identifier() == "smd5" && DigestHash::Md5.size() == 16);
    assert!(rt; DigestHash::Sha1.identifier() == "ssha" && DigestHash::Sha1.size() == 20);
    assert!(rt; DigestHash::Sha256.identifier() == "ssha256" && DigestHash::Sha256.size() == 32);
    assert!(rt; DigestHash::Sha512.identifier() == "ssha512" && DigestHash::Sha512.size() == 64);
}

// A password, the text of Apache's `{SHA}` (htpasswd -s) and its hash function.
const APACHE: &[(&[u8], &str, DigestHash)] = &[
    (b"", "$ssha$$2jmj7l5rSw0yVb/vlWAYkK/YBwk=", DigestHash::Sha1),
    (
        b"correct horse battery",
        "$ssha$$mN7MYuzjmaIu0w1JDvMzvn/ec4U=",
        DigestHash::Sha1,
    ),
    (
        b"na\xc3\xafve p\xc3\xa4ssw\xc3\xb6rd \xe5\xaf\x86\xe7\xa0\x81\xf0\x9f\x94\x91",
        "$ssha$$nasvF/EaSp2K9fw/W+71xUbqmEY=",
        DigestHash::Sha1,
    ),
    (
        b"secret",
        "$ssha$$5en6G6MezRroT3XKqkdPOmY/BfQ=",
        DigestHash::Sha1,
    ),
    (
        b"with\ttab:colon$dollar 'quotes\" ",
        "$ssha$$EhMxXqOwAPE67spCvfUzuv1W1F4=",
        DigestHash::Sha1,
    ),
];

// The same of Dovecot's `{SMD5}`, `{SHA256}`, `{SSHA256}` and `{SSHA512}`.
const DOVECOT: &[(&[u8], &str, DigestHash)] = &[
    (
        b"",
        "$ssha256$$47DEQpj8HBSa+/TImW+5JCeuQeRkm5NMpJWZG3hSuFU=",
        DigestHash::Sha256,
    ),
    (
        b"correct horse battery",
        "$ssha256$$kCjqDRXeyqNbLaIcApCvOxpboKMKWRkG+JtQdOIJ6nI=",
        DigestHash::Sha256,
    ),
    (
        b"na\xc3\xafve p\xc3\xa4ssw\xc3\xb6rd \xe5\xaf\x86\xe7\xa0\x81\xf0\x9f\x94\x91",
        "$ssha256$$zXNeMxYJ10NXlp4JLzaOh5zDIu8vnYBZX6DWZ4eNMU4=",
        DigestHash::Sha256,
    ),
    (
        b"secret",
        "$ssha256$$K7gNU3sdo+OL0wNhqoVWhr3g6s1xYv72ol/pe/Unols=",
        DigestHash::Sha256,
    ),
    (
        b"",
        "$smd5$H7mPIw==$3ptdHOWbcHIUFdymGF2vOQ==",
        DigestHash::Md5,
    ),
    (
        b"correct horse battery",
        "$smd5$uu0QDQ==$F6K2ja3s1F8d9PLIXPDgTQ==",
        DigestHash::Md5,
    ),
    (
        b"na\xc3\xafve p\xc3\xa4ssw\xc3\xb6rd \xe5\xaf\x86\xe7\xa0\x81\xf0\x9f\x94\x91",
        "$smd5$R/SC/w==$xjVNpMMzLWimEMik1fsx+A==",
        DigestHash::Md5,
    ),
    (
        b"secret",
        "$smd5$e1yZKw==$ND6MlslK4kTXcF2cKFhoPg==",
        DigestHash::Md5,
    ),
    (
        b"",
        "$ssha256$3Wu2Qg==$ULCe/uPrfeq8ebUUsXTvWOTEEaqOxqejfEU0Oy4T3H4=",
        DigestHash::Sha256,
    ),
    (
        b"correct horse battery",
        "$ssha256$r3P2rg==$ovH5RVj39EXIT6AUIikNR2FOx9obl0gTeCXygaZgzZ4=",
        DigestHash::Sha256,
    ),
    (
        b"na\xc3\xafve p\xc3\xa4ssw\xc3\xb6rd \xe5\xaf\x86\xe7\xa0\x81\xf0\x9f\x94\x91",
        "$ssha256$vrJnYQ==$zxqiFctRM2s8H2P3KaWnM9G9arQBCDSxYUu32o1muT8=",
        DigestHash::Sha256,
    ),
    (
        b"secret",
        "$ssha256$ipGEMg==$EX+AlXPlJ6LOg8iMunRx6GFkf8GUvm1a4unlJev+0oM=",
        DigestHash::Sha256,
    ),
    (
        b"",
        "$ssha512$vKbBtA==$4t2WdHNb5BUCf/G3oOGq91GXOnky3yeeYyanf6GSnj3yLnwtFQnzV8rysYqPfN9RN9ocZhzmf2qD2a16ozy5Yg==",
        DigestHash::Sha512,
    ),
    (
        b"correct horse battery",
        "$ssha512$ddFdww==$NzBL7GnCR8+4dts6oLuuwW1pNbBxRyJtmT/QDQuQ6bF8Pb6HuCRY+XOiiLl8mzQlg3GezKJW/tjf1mlkJHATPg==",
        DigestHash::Sha512,
    ),
    (
        b"na\xc3\xafve p\xc3\xa4ssw\xc3\xb6rd \xe5\xaf\x86\xe7\xa0\x81\xf0\x9f\x94\x91",
        "$ssha512$H9WxMQ==$wi/PC5X8C2f+aqLOG4qcVkz6HFvEFklYeNqLcPVWp7x9pbrjucZ7Vovn0og+UK3MKaa8QpEI+p3WqfXEFQWsoA==",
        DigestHash::Sha512,
    ),
    (
        b"secret",
        "$ssha512$dpAX2Q==$5wv25RQkzCUwxrbFgRKKF/Ytrjhy9hGDRZvWnzcRDjpZWvSUMLqzy3wz7VEDf3+Mgv8rRng/40Jyv3U81ueFuw==",
        DigestHash::Sha512,
    ),
];

// The same of 389-ds' `{SSHA512}`.
const DIRECTORY_389: &[(&[u8], &str, DigestHash)] = &[
    (
        b"secret",
        "$ssha512$GvCtCYhcG9k=$J37XHP+ir/NHsU3KWxpsW1E5qI1JbYSCLMsvRp8JLWp9qGsZFRUt+FzVtKiQcbF+wArqqKP0sW6Cuqjg/K97LQ==",
        DigestHash::Sha512,
    ),
    (
        b"correct horse battery",
        "$ssha512$HgMXG/waW+0=$aRk6ZOV1ervOFjwRUo/HYhMr/ChgFNt4idG3VEVkDjWm1uVZeFkLTqPbwTSsPnv6gESy5258cL14dQnbphsZRA==",
        DigestHash::Sha512,
    ),
    (
        b"na\xc3\xafve p\xc3\xa4ssw\xc3\xb6rd \xe5\xaf\x86\xe7\xa0\x81\xf0\x9f\x94\x91",
        "$ssha512$R4VB0GQOfLI=$ZwN2zHuvbrhm7yYA3tt/+0ieRJIR3MJ5lElRTDAiHKAKg+Fs9aLgwHgzhVLVPvD/n1Xj4DnyBQINbUDCwjp+Xg==",
        DigestHash::Sha512,
    ),
    (
        b"",
        "$ssha512$5Jm4bvUQeEY=$F2VWrIayWnEPTW72eqRqOEUADtZ55feSiLCg4bqgKAjtIwvWFXXQzG6H2f1CNYnc771S8zlyvB8+LE9xZA/gxQ==",
        DigestHash::Sha512,
    ),
];

// The same of passlib's LDAP schemes.
const PASSLIB: &[(&[u8], &str, DigestHash)] = &[
    (
        b"password",
        "$smd5$1Tq1tg==$nYJLVYiNZZ7KQY6q3khZaA==",
        DigestHash::Md5,
    ),
    (
        b"p\xc3\xa4ss",
        "$smd5$+vv8/f7/AAECAwQFBgcICQ==$3/dPHyHX400SnpejLPTR7w==",
        DigestHash::Md5,
    ),
    (
        b"password",
        "$ssha$1Tq1tg==$9aAHAEliYNqsLftXY4hlXbhC9nY=",
        DigestHash::Sha1,
    ),
    (
        b"p\xc3\xa4ss",
        "$ssha$+vv8/f7/AAECAwQFBgcICQ==$w6iJYeYrwX3izG+Mm4GEPt8aLLM=",
        DigestHash::Sha1,
    ),
    (
        b"password",
        "$ssha256$1Tq1tg==$TI/j3bAQNvufgXQ82YioS2aIX1yikE2U0mrCu9cM0Z8=",
        DigestHash::Sha256,
    ),
    (
        b"p\xc3\xa4ss",
        "$ssha256$+vv8/f7/AAECAwQFBgcICQ==$TeCPqMq79IuijmlysiNyMlLjmA6uPiKWphz+/Jjx+KQ=",
        DigestHash::Sha256,
    ),
    (
        b"password",
        "$ssha512$1Tq1tg==$IaRchdSOVS8vV7axOpXT074kmqZQusBR2ljibu2vpY1rnwnxSHZZ/bi2Bxyzh50/aO57lqeyJePPVlqUUgVdwQ==",
        DigestHash::Sha512,
    ),
    (
        b"p\xc3\xa4ss",
        "$ssha512$+vv8/f7/AAECAwQFBgcICQ==$OGqZTsHZL3n2MCrdFs+1NGA5haRWMp7+Nsb409clXeiIhI6HR4gqfGbNn/29IaPoMzpSGSKKEikwubfU08ZcgQ==",
        DigestHash::Sha512,
    ),
    (
        b"password",
        "$smd5$$X03MO1qnZdYdgyfeuILPmQ==",
        DigestHash::Md5,
    ),
    (
        b"password",
        "$ssha$$W6ph5Mm5Pz8GgiULbPgzG37mj9g=",
        DigestHash::Sha1,
    ),
    (
        b"",
        "$ssha256$aW0txRhDKOU=$JLOeNNMVK3LpHvdzh4dbFyUrIr2v/GgeH24wzSyth3A=",
        DigestHash::Sha256,
    ),
    (
        b"correct horse battery",
        "$ssha256$HKPUWktprTU=$S80VbRKwv8VDiEZLEHZqBVt0JTXN+oH8iJi+IJNKxnY=",
        DigestHash::Sha256,
    ),
    (
        b"na\xc3\xafve p\xc3\xa4ssw\xc3\xb6rd \xe5\xaf\x86\xe7\xa0\x81\xf0\x9f\x94\x91",
        "$ssha256$hzDG2HsPQYg=$MA+1vnDWFRSrFuysnrJIrhYnfYD+Fb6G0+PDv1b9Ci4=",
        DigestHash::Sha256,
    ),
];

// The same of OpenSSL's digests, for passwords with a zero byte, and for salts of other lengths.
const OPENSSL: &[(&[u8], &str, DigestHash)] = &[
    (b"", "$smd5$$1B2M2Y8AsgTpgAmY7PhCfg==", DigestHash::Md5),
    (
        b"a\0b",
        "$smd5$YWJjZGVmZ2g=$/oFglKVjmC/7iOnubA2UQg==",
        DigestHash::Md5,
    ),
    (
        b"a\0b",
        "$ssha$YWJjZGVmZ2g=$n+KAxCItGAlJZy2KrEfpQfxkKWM=",
        DigestHash::Sha1,
    ),
    (
        b"\xff\xfe",
        "$ssha$////////////////////////////////////////////////////////////////$hKGNZ9KBWzzkZ9ciZKy4lqXClVo=",
        DigestHash::Sha1,
    ),
    (
        b"a\0b",
        "$ssha256$YWJjZGVmZ2g=$DMdUvW1bL5Ns/J+JlUVeFE7ZV/iDqF19A+zWTxH1NAE=",
        DigestHash::Sha256,
    ),
    (
        b"",
        "$ssha256$AA==$bjQLnP+zepicpUTmu3gKLHiQHT+zNzh2hRGjBhevoB0=",
        DigestHash::Sha256,
    ),
    (
        b"a\0b",
        "$ssha512$YWJjZGVmZ2g=$DOKV2Bhbw1MQMH2np8AE5cKOBjtwn2WgnQLPH4yr/tJO/+0+mbMCxsj6fCTkOlbqPUmDJoWuGx9XHUdGF40XrQ==",
        DigestHash::Sha512,
    ),
    (
        b"test",
        "$ssha512$$7iaw3Ur350mqGo7jwQrpkj9hiYB3Lkc/iBml1JQODbJ6wYX4oOHV+E+IvIh/1nsUNzLDBMxfqa2Ob1f1ACio/w==",
        DigestHash::Sha512,
    ),
    (
        b"test",
        "$ssha512$AAECAwQFBgcICQoLDA0ODxAREhMUFRYXGBkaGxwdHh8gISIjJCUmJygpKissLS4=$QSr01eKBBSnaVrjt5NqfOQ8cwELk1FsXS6OCE4zMVd4+5jrpOLW81B4G/JcQS0teA9XAgR6o4ofkErdDgSOT2w==",
        DigestHash::Sha512,
    ),
];

// How many characters a digest has in Base64.
fn characters_of(hash: DigestHash) -> u64 {
    match hash {
        DigestHash::Md5 => 24,
        DigestHash::Sha1 => 28,
        DigestHash::Sha256 => 44,
        DigestHash::Sha512 => 88,
    }
}

// How many comparisons a verdict takes.
fn sames_of(hash: DigestHash) -> u64 {
    match hash {
        DigestHash::Md5 => 20,
        DigestHash::Sha1 => 24,
        DigestHash::Sha256 => 36,
        DigestHash::Sha512 => 68,
    }
}

// Whether a password has this answer for a text by both calls, with the numbers of a verdict.
fn is_verdict(password: &[u8], stored: &str, hash: DigestHash, matches: bool) -> bool {
    let mut counts = Counts::new();
    salted_check_counted(password, stored, &mut counts) == Ok(matches)
        && counts.looks() == characters_of(hash)
        && counts.sames() == sames_of(hash)
        && salted_check(password, stored) == Ok(matches)
        && text_hash(stored) == Ok(hash)
}

// Whether each password matches its text, and another password doesn't.
fn are_verdicts(rows: &[(&[u8], &str, DigestHash)]) -> bool {
    for (password, stored, hash) in rows {
        let others = is_verdict(b"a\0d", stored, *hash, false);
        if !others || !is_verdict(password, stored, *hash, true) {
            return false;
        }
    }
    true
}

#[test]
fn verdicts(rt: HostRuntime) {
    assert!(rt; are_verdicts(APACHE));
    assert!(rt; are_verdicts(DOVECOT));
    assert!(rt; are_verdicts(DIRECTORY_389));
    assert!(rt; are_verdicts(PASSLIB));
    assert!(rt; are_verdicts(OPENSSL));
}

// Texts that are none of the password `test`: of each hash function one whose first bit is another one, one whose last bit is, one of the
// salt before the password, one that has lost its salt, and one that was hashed without it.
const OTHER_DIGESTS: &[&str] = &[
    "$smd5$YWJjZGVmZ2g=$sgeX10aKzSd/KUEVQ4NEGw==",
    "$smd5$YWJjZGVmZ2g=$MgeX10aKzSd/KUEVQ4NEGg==",
    "$smd5$YWJjZGVmZ2g=$JFI28ZO30H9454fDYScaWw==",
    "$smd5$$MgeX10aKzSd/KUEVQ4NEGw==",
    "$smd5$YWJjZGVmZ2g=$CY9rzUYh03PK3k6DJie09g==",
    "$ssha$YWJjZGVmZ2g=$B7OfJCHEFxNAlZdwEW691yJ18gA=",
    "$ssha$YWJjZGVmZ2g=$h7OfJCHEFxNAlZdwEW691yJ18gE=",
    "$ssha$YWJjZGVmZ2g=$F3htUKT8aGu7KcY5v5DRSemzLW8=",
    "$ssha$$h7OfJCHEFxNAlZdwEW691yJ18gA=",
    "$ssha$YWJjZGVmZ2g=$qUqP5cyxm6YcTAhz05Hph5gvu9M=",
    "$ssha256$YWJjZGVmZ2g=$WNyEenqLpshs3FqBQZMfRElbjk3c1cl2aui8CRNTR3U=",
    "$ssha256$YWJjZGVmZ2g=$2NyEenqLpshs3FqBQZMfRElbjk3c1cl2aui8CRNTR3Q=",
    "$ssha256$YWJjZGVmZ2g=$iAVit6GBdfg9xFdc+EL9hzkIh+tvmTl4uGMrbDA2Sxc=",
    "$ssha256$$2NyEenqLpshs3FqBQZMfRElbjk3c1cl2aui8CRNTR3U=",
    "$ssha256$YWJjZGVmZ2g=$n4bQgYhMfWWaL+qgxVrQFaO/TxsrC4Is0V1sFbDwCgg=",
    "$ssha512$YWJjZGVmZ2g=$mu1UbTsBWztHN6e0zV9aeyvTEpU2NQKPfIgkuB7WdwlW0NcE+KQhpHnlZt+gXZ+AmKiE/r3l+PK63LWfzHZPHA==",
    "$ssha512$YWJjZGVmZ2g=$Gu1UbTsBWztHN6e0zV9aeyvTEpU2NQKPfIgkuB7WdwlW0NcE+KQhpHnlZt+gXZ+AmKiE/r3l+PK63LWfzHZPHQ==",
    "$ssha512$YWJjZGVmZ2g=$QoQg9Ydt+Tbz6HGPNoVHHCrhcIPiz+QyKPi+1BWgC87rTr2+ySdMs6uuedB6Xc0Lj/Gmu/trO9aswoNh+cvWJw==",
    "$ssha512$$Gu1UbTsBWztHN6e0zV9aeyvTEpU2NQKPfIgkuB7WdwlW0NcE+KQhpHnlZt+gXZ+AmKiE/r3l+PK63LWfzHZPHA==",
    "$ssha512$YWJjZGVmZ2g=$7iaw3Ur350mqGo7jwQrpkj9hiYB3Lkc/iBml1JQODbJ6wYX4oOHV+E+IvIh/1nsUNzLDBMxfqa2Ob1f1ACio/w==",
];

#[test]
fn other_digests(rt: HostRuntime) {
    for stored in OTHER_DIGESTS {
        assert!(rt; salted_check(b"test", stored) == Ok(false), "{stored}");
    }
}

#[test]
fn counts_added(rt: HostRuntime) {
    let mut counts = Counts::new();
    assert!(rt; salted_check_counted(b"a\0b", OPENSSL[1].1, &mut counts) == Ok(true));
    assert!(rt; salted_check_counted(b"a\0d", OPENSSL[6].1, &mut counts) == Ok(false));
    assert!(rt; counts.looks() == 112 && counts.sames() == 88);
}

// Texts and their first fault. Each text but the first of a fault has a later fault too, or is near to one without a fault.
const FAULTS: &[(&str, SaltedFault)] = &[
    ("", SaltedFault::WrongId),
    (
        "ssha$YWJjZGVmZ2g=$h7OfJCHEFxNAlZdwEW691yJ18gA=",
        SaltedFault::NoDollar,
    ),
    ("x$sha", SaltedFault::NoDollar),
    (
        " $ssha$YWJjZGVmZ2g=$h7OfJCHEFxNAlZdwEW691yJ18gA=",
        SaltedFault::NoDollar,
    ),
    (
        "{SSHA}9aAHAEliYNqsLftXY4hlXbhC9nbVOrW2",
        SaltedFault::NoDollar,
    ),
    ("$", SaltedFault::WrongId),
    (
        "$sha1$YWJjZGVmZ2g=$h7OfJCHEFxNAlZdwEW691yJ18gA=",
        SaltedFault::WrongId,
    ),
    (
        "$sha$YWJjZGVmZ2g=$h7OfJCHEFxNAlZdwEW691yJ18gA=",
        SaltedFault::WrongId,
    ),
    (
        "$SSHA$YWJjZGVmZ2g=$h7OfJCHEFxNAlZdwEW691yJ18gA=",
        SaltedFault::WrongId,
    ),
    (
        "$md5$YWJjZGVmZ2g=$MgeX10aKzSd/KUEVQ4NEGw==",
        SaltedFault::WrongId,
    ),
    (
        "$ssha384$YWJjZGVmZ2g=$Gu1UbTsBWztHN6e0zV9aeyvTEpU2NQKPfIgkuB7WdwlW0NcE+KQhpHnlZt+gXZ+AmKiE/r3l+PK63LWfzHZPHA==",
        SaltedFault::WrongId,
    ),
    ("$ssha1", SaltedFault::WrongId),
    ("$ssha25$", SaltedFault::WrongId),
    ("$smd5", SaltedFault::NoSalt),
    ("$ssha", SaltedFault::NoSalt),
    ("$ssha256", SaltedFault::NoSalt),
    ("$ssha512", SaltedFault::NoSalt),
    ("$ssha$", SaltedFault::NoHash),
    ("$ssha$-", SaltedFault::NoHash),
    ("$ssha512$YWJjZGVmZ2g=", SaltedFault::NoHash),
    (
        "$ssha$YWJjZGVmZ2g=:h7OfJCHEFxNAlZdwEW691yJ18gA=",
        SaltedFault::NoHash,
    ),
    ("$ssha$-$$", SaltedFault::Trailing),
    (
        "$ssha$YWJjZGVmZ2g=$h7OfJCHEFxNAlZdwEW691yJ18gA=$",
        SaltedFault::Trailing,
    ),
    (
        "$ssha512$YWJjZGVmZ2g=$Gu1UbTsBWztHN6e0zV9aeyvTEpU2NQKPfIgkuB7WdwlW0NcE+KQhpHnlZt+gXZ+AmKiE/r3l+PK63LWfzHZPHA==$x$y",
        SaltedFault::Trailing,
    ),
    (
        "$ssha$$$h7OfJCHEFxNAlZdwEW691yJ18gA=",
        SaltedFault::Trailing,
    ),
    (
        "$ssha$AAAAAAAAAAAAAAAAAAAAAAAAAAAAAAAAAAAAAAAAAAAAAAAAAAAAAAAAAAAAAAAAA$h7OfJCHEFxNAlZdwEW691yJ18gA=",
        SaltedFault::SaltLength,
    ),
    (
        "$ssha$AAAAAAAAAAAAAAAAAAAAAAAAAAAAAAAAAAAAAAAAAAAAAAAAAAAAAAAAAAAAAAAAAAAA$x",
        SaltedFault::SaltLength,
    ),
    (
        "$smd5$--------------------------------------------------------------------$MgeX10aKzSd/KUEVQ4NEGw==",
        SaltedFault::SaltLength,
    ),
    (
        "$ssha256$AAAAAAAAAAAAAAAAAAAAAAAAAAAAAAAAAAAAAAAAAAAAAAAAAAAAAAAAAAAAAAAAAAAA$2NyEenqLpshs3FqBQZMfRElbjk3c1cl2aui8CRNTR3U=",
        SaltedFault::SaltLength,
    ),
    (
        "$ssha$YWJjZGVmZ2g$h7OfJCHEFxNAlZdwEW691yJ18gA=",
        SaltedFault::SaltEncoding,
    ),
    (
        "$ssha$YWJjZGVmZ2h=$h7OfJCHEFxNAlZdwEW691yJ18gA=",
        SaltedFault::SaltEncoding,
    ),
    (
        "$ssha$YWJjZGVmZ2g==$h7OfJCHEFxNAlZdwEW691yJ18gA=",
        SaltedFault::SaltEncoding,
    ),
    (
        "$ssha$YWJj-GVmZ2g=$h7OfJCHEFxNAlZdwEW691yJ18gA=",
        SaltedFault::SaltEncoding,
    ),
    (
        "$ssha$YWJjZGVm Z2g$h7OfJCHEFxNAlZdwEW691yJ18gA=",
        SaltedFault::SaltEncoding,
    ),
    (
        "$ssha$====$h7OfJCHEFxNAlZdwEW691yJ18gA=",
        SaltedFault::SaltEncoding,
    ),
    ("$ssha$A$x", SaltedFault::SaltEncoding),
    (
        "$ssha$=$h7OfJCHEFxNAlZdwEW691yJ18gA=",
        SaltedFault::SaltEncoding,
    ),
    (
        "$ssha$AA=A$h7OfJCHEFxNAlZdwEW691yJ18gA=",
        SaltedFault::SaltEncoding,
    ),
    (
        "$ssha$A===$h7OfJCHEFxNAlZdwEW691yJ18gA=",
        SaltedFault::SaltEncoding,
    ),
    (
        "$ssha512$YWJjZA==YWJj$Gu1UbTsBWztHN6e0zV9aeyvTEpU2NQKPfIgkuB7WdwlW0NcE+KQhpHnlZt+gXZ+AmKiE/r3l+PK63LWfzHZPHA==",
        SaltedFault::SaltEncoding,
    ),
    (
        "$ssha$\u{e9}\u{e9}$h7OfJCHEFxNAlZdwEW691yJ18gA=",
        SaltedFault::SaltEncoding,
    ),
    (
        "$ssha256$----------------------------------------------------------------$",
        SaltedFault::SaltEncoding,
    ),
    ("$ssha$YWJjZGVmZ2g=$", SaltedFault::HashLength),
    (
        "$ssha$YWJjZGVmZ2g=$h7OfJCHEFxNAlZdwEW691yJ18gA",
        SaltedFault::HashLength,
    ),
    (
        "$ssha$YWJjZGVmZ2g=$h7OfJCHEFxNAlZdwEW691yJ18gA==",
        SaltedFault::HashLength,
    ),
    ("$ssha$YWJjZGVmZ2g=$-", SaltedFault::HashLength),
    (
        "$smd5$YWJjZGVmZ2g=$h7OfJCHEFxNAlZdwEW691yJ18gA=",
        SaltedFault::HashLength,
    ),
    (
        "$ssha$YWJjZGVmZ2g=$MgeX10aKzSd/KUEVQ4NEGw==",
        SaltedFault::HashLength,
    ),
    (
        "$ssha256$YWJjZGVmZ2g=$Gu1UbTsBWztHN6e0zV9aeyvTEpU2NQKPfIgkuB7WdwlW0NcE+KQhpHnlZt+gXZ+AmKiE/r3l+PK63LWfzHZPHA==",
        SaltedFault::HashLength,
    ),
    (
        "$ssha512$YWJjZGVmZ2g=$2NyEenqLpshs3FqBQZMfRElbjk3c1cl2aui8CRNTR3U=",
        SaltedFault::HashLength,
    ),
    (
        "$smd5$YWJjZGVmZ2g=$MgeX10aKzSd/KUEVQ4NEGw",
        SaltedFault::HashLength,
    ),
    (
        "$ssha512$$eHh4eHh4eHh4eHh4eHh4eHh4eHh4eHh4eHh4eHh4eHh4eHh4eHh4eHh4eHh4eHh4eHh4eHh4eHh4eHh4eHh4eHh4eA==",
        SaltedFault::HashLength,
    ),
    (
        "$smd5$YWJjZGVmZ2g=$eHh4eHh4eHh4eHh4eHh4eHg=",
        SaltedFault::HashEncoding,
    ),
    (
        "$smd5$YWJjZGVmZ2g=$eHh4eHh4eHh4eHh4eHh4eHh4",
        SaltedFault::HashEncoding,
    ),
    (
        "$ssha$YWJjZGVmZ2g=$eHh4eHh4eHh4eHh4eHh4eHh4eA==",
        SaltedFault::HashEncoding,
    ),
    (
        "$ssha$YWJjZGVmZ2g=$eHh4eHh4eHh4eHh4eHh4eHh4eHh4",
        SaltedFault::HashEncoding,
    ),
    (
        "$ssha256$YWJjZGVmZ2g=$eHh4eHh4eHh4eHh4eHh4eHh4eHh4eHh4eHh4eHh4eA==",
        SaltedFault::HashEncoding,
    ),
    (
        "$ssha256$YWJjZGVmZ2g=$eHh4eHh4eHh4eHh4eHh4eHh4eHh4eHh4eHh4eHh4eHh4",
        SaltedFault::HashEncoding,
    ),
    (
        "$ssha512$YWJjZGVmZ2g=$eHh4eHh4eHh4eHh4eHh4eHh4eHh4eHh4eHh4eHh4eHh4eHh4eHh4eHh4eHh4eHh4eHh4eHh4eHh4eHh4eHh4eHg=",
        SaltedFault::HashEncoding,
    ),
    (
        "$ssha512$YWJjZGVmZ2g=$eHh4eHh4eHh4eHh4eHh4eHh4eHh4eHh4eHh4eHh4eHh4eHh4eHh4eHh4eHh4eHh4eHh4eHh4eHh4eHh4eHh4eHh4",
        SaltedFault::HashEncoding,
    ),
    (
        "$smd5$YWJjZGVmZ2g=$MgeX10aKzSd/KUEVQ4NEGx==",
        SaltedFault::HashEncoding,
    ),
    (
        "$ssha$YWJjZGVmZ2g=$h7OfJCHEFxNAlZdwEW691yJ18gB=",
        SaltedFault::HashEncoding,
    ),
    (
        "$ssha256$YWJjZGVmZ2g=$2NyEenqLpshs3FqBQZMfRElbjk3c1cl2aui8CRNTR3V=",
        SaltedFault::HashEncoding,
    ),
    (
        "$ssha512$YWJjZGVmZ2g=$Gu1UbTsBWztHN6e0zV9aeyvTEpU2NQKPfIgkuB7WdwlW0NcE+KQhpHnlZt+gXZ+AmKiE/r3l+PK63LWfzHZPHB==",
        SaltedFault::HashEncoding,
    ),
    (
        "$ssha$YWJjZGVmZ2g=$-7OfJCHEFxNAlZdwEW691yJ18gA=",
        SaltedFault::HashEncoding,
    ),
    (
        "$ssha$YWJjZGVmZ2g=$h7OfJCHEF NAlZdwEW691yJ18gA=",
        SaltedFault::HashEncoding,
    ),
    (
        "$ssha$YWJjZGVmZ2g=$============================",
        SaltedFault::HashEncoding,
    ),
    (
        "$ssha512$$_u1UbTsBWztHN6e0zV9aeyvTEpU2NQKPfIgkuB7WdwlW0NcE+KQhpHnlZt+gXZ+AmKiE/r3l+PK63LWfzHZPHA==",
        SaltedFault::HashEncoding,
    ),
];

// Whether a text has this fault by each call, whatever the password, with no more counted than a fault may.
fn is_fault(stored: &str, fault: SaltedFault) -> bool {
    let mut counts = Counts::new();
    salted_check_counted(b"", stored, &mut counts) == Err(fault)
        && counts.looks() <= 88
        && counts.sames() <= 4
        && salted_check(b"a\0b\xff", stored) == Err(fault)
        && text_hash(stored) == Err(fault)
}

#[test]
fn faults(rt: HostRuntime) {
    for (stored, fault) in FAULTS {
        assert!(rt; is_fault(stored, *fault), "{stored}");
    }
}

#[test]
fn laws_stand() {
    laws::one_text();
    laws::verdict_where_hash();
    laws::matches_exactly();
}
