//! Texts, new settings and answers of libxcrypt 4.4.33.

use crypt_text::{
    CryptError, SaltStatus, Scheme, crypt_text, method_of, new_setting, random_len, salt_status,
};
use std::alloc::Global;
use std::test::Fail;

// A phrase, a setting, and the text that crypt(3) gives for them, by methods.
const MD5_TEXTS: [(&[u8], &[u8], &[u8]); 7] = [
    (b"correct horse", b"$1$", b"$1$$IfI/mw4YSCwcQoW.D.DSu1"),
    (b"correct horse", b"$1$$x", b"$1$$IfI/mw4YSCwcQoW.D.DSu1"),
    (
        b"correct horse",
        b"$1$saltsaltmore$hash",
        b"$1$saltsalt$NuzA7WTAelpl95xgBGWN60",
    ),
    (
        b"correct horse",
        b"$1$\"#%&'()<",
        b"$1$\"#%&'()<$7zreKmsu/ON6UkI3RRQmw.",
    ),
    (
        b"\x01 $\x7f\x80\xa3\xfe\xff",
        b"$1$saltsalt$",
        b"$1$saltsalt$aRddAKB/hybPGv1aY1EdE/",
    ),
    (&[b'a'; 511], b"$1$salt", b"$1$salt$dpArRkCZ1HjCW3ASuKw6k0"),
    (b"", b"$1$salt", b"$1$salt$UsdFqFVB.FsuinRDK5eE.."),
];

const SHA_TEXTS: [(&[u8], &[u8], &[u8]); 8] = [
    (
        b"correct horse",
        b"$5$rounds=1000$",
        b"$5$rounds=1000$$Qq2SZC3NeUzIDXheJm.s6eO00IPVPLvCg7WU75UqFx.",
    ),
    (
        b"correct horse",
        b"$5$rounds=1000$0123456789abcdefg$x",
        b"$5$rounds=1000$0123456789abcdef$nR1521U8IXcSFtheYoCuDMlX/ICPi621L7rO.MJ27x2",
    ),
    (
        b"correct horse",
        b"$6$rounds=1001$s$rounds=1$x",
        b"$6$rounds=1001$s$evImGQ341wACL.pKv5BuAz5Ptbp2ujsLCsN4k/os4XAEi3QUpITGyxvU.GBlySEpKM49Kz/ip7ZENQyzPzHDJ/",
    ),
    (
        b"correct horse",
        b"$6$rounds=1000$rounds=1000$x",
        b"$6$rounds=1000$rounds=1000$p9WAB3pqAP73jW.jcQncoI1/IMPoiqSejevnA.jG82A/opus2SiatYjcczx2tgdak34leEyLIpPTHN.QaiyW3/",
    ),
    (
        b"correct horse",
        b"$6$rounds=1000$@[]^_`{|}~=-+,",
        b"$6$rounds=1000$@[]^_`{|}~=-+,$3USrh73CkYQsikMauFZu9R07McKglRy9DanVsZD.lROCLWbXtd6GsBsKv896NWlpdtBkRxv2t/Q8fR6Y/5cVq.",
    ),
    (
        b"correct horse",
        b"$6$rounds$abc",
        b"$6$rounds$DrsfBxQq7Tt9xfGc.zydJ74Tn.EeVG60Hlabgp2rlfAe1k2lcwKugybUH7r9JN79aESvHp0QEJ7A4tlPSUaVA/",
    ),
    (
        b"\x01 $\x7f\x80\xa3\xfe\xff",
        b"$5$rounds=1000$salt",
        b"$5$rounds=1000$salt$G43YNlJzJ3u1rMd36AM0F11pitQhj0ufJYRbqb6izX5",
    ),
    (
        &[b'a'; 511],
        b"$6$rounds=1000$salt",
        b"$6$rounds=1000$salt$lZ.wFK7OAdCcgvqIPhZyOij9xOymdmsD2RSyI29dHomGqgMZ9GKPsU9sDQoDKrlHKdS4ij3VGXJFyNkz/Tn4M0",
    ),
];

const BCRYPT_TEXTS: [(&[u8], &[u8], &[u8]); 13] = [
    (
        b"correct horse",
        b"$2a$04$abcdefghijklmnopqrstuu",
        b"$2a$04$abcdefghijklmnopqrstuujydOTSfIH/d5oUHpsygqV5X9xJLQc6e",
    ),
    (
        b"\x01 $\x7f\x80\xa3\xfe\xff",
        b"$2b$04$abcdefghijklmnopqrstuu",
        b"$2b$04$abcdefghijklmnopqrstuumcNwzmrR9VhdnBn6XeooXKe8q6vsd.q",
    ),
    (
        b"aaaaaaaaaaaaaaaaaaaaaaaaaaaaaaaaaaaaaaaaaaaaaaaaaaaaaaaaaaaaaaaaaaaaaaaa",
        b"$2y$04$abcdefghijklmnopqrstuu",
        b"$2y$04$abcdefghijklmnopqrstuuBzzIgyKkz7xMWYSzkIjUSnxEQFQ0WNe",
    ),
    (
        b"correct horse",
        b"$2b$04$abcdefghijklmnopqrstu/$more(%",
        b"$2b$04$abcdefghijklmnopqrstu.0KrjVYE1P77UKK2YpxKBolHt7eiZQ0q",
    ),
    (
        b"correct horse",
        b"$2b$04$abcdefghijklmnopqrstuO",
        b"$2b$04$abcdefghijklmnopqrstuOqYRIqRs12k1wOugwHhZf/vUS/IBW0b2",
    ),
    (
        b"correct horse",
        b"$2b$04$abcdefghijklmnopqrstuf",
        b"$2b$04$abcdefghijklmnopqrstueX9pG3ytJqukehDfcEnpiWgbOCi86RXS",
    ),
    (
        b"correct horse",
        b"$2b$04$abcdefghijklmnopqrstut",
        b"$2b$04$abcdefghijklmnopqrstueX9pG3ytJqukehDfcEnpiWgbOCi86RXS",
    ),
    (
        b"correct horse",
        b"$2b$04$abcdefghijklmnopqrstu9",
        b"$2b$04$abcdefghijklmnopqrstuujydOTSfIH/d5oUHpsygqV5X9xJLQc6e",
    ),
    (
        b"aaaaaaaaaaaaaaaaaaaaaaaaaaaaaaaaaaaaaaaaaaaaaaaaaaaaaaaaaaaaaaaaaaaaaaaaa",
        b"$2b$04$abcdefghijklmnopqrstuu",
        b"$2b$04$abcdefghijklmnopqrstuuBzzIgyKkz7xMWYSzkIjUSnxEQFQ0WNe",
    ),
    (
        b"\xff\xff\xa3",
        b"$2a$04$abcdefghijklmnopqrstuu",
        b"$2a$04$abcdefghijklmnopqrstuuZQhQBRpiYJCaQFgyHlB.t/F01cqLCIu",
    ),
    (
        b"\xff\xff\xa3",
        b"$2b$04$abcdefghijklmnopqrstuu",
        b"$2b$04$abcdefghijklmnopqrstuuMOaOTHB4gEm.rriBjXNwBNh.Oc4mKGG",
    ),
    (
        b"\xff\xff\xa3",
        b"$2y$04$abcdefghijklmnopqrstuu",
        b"$2y$04$abcdefghijklmnopqrstuuMOaOTHB4gEm.rriBjXNwBNh.Oc4mKGG",
    ),
    (
        b"a\xff\xa3",
        b"$2a$04$abcdefghijklmnopqrstuu",
        b"$2a$04$abcdefghijklmnopqrstuupkyb4IOYNHi8I1radCzw3/Y0LdfSOBG",
    ),
];

const SCRYPT_TEXTS: [(&[u8], &[u8], &[u8]); 8] = [
    (
        b"correct horse",
        b"$7$0/..../....",
        b"$7$0/..../....$6VzZ6j.cht12hGWC.xVMZngscoRm2s0UzBYHsJAK06A",
    ),
    (
        b"correct horse",
        b"$7$0/..../....s$x$y",
        b"$7$0/..../....s$x$Ya8FfAEyuBI0p15fteCrteXXOzH6UGSp/Mk3joAnQJ5",
    ),
    (
        b"correct horse",
        b"$7$0/..../....s$$",
        b"$7$0/..../....s$$/RcY9t/yaHaGZk3zvyqw9DZtOcfm0z7ZAxKTStofQe6",
    ),
    (
        b"correct horse",
        b"$7$0/..../....$-Zc$q-I",
        b"$7$0/..../....$-Zc$24dkVLIXUENnYUIeyJZ9stJJJ4KhQ2L/kleYCVaHpX1",
    ),
    (
        b"correct horse",
        b"$7$0/..../....salt$hash",
        b"$7$0/..../....salt$PmFE5E0VYJ1aCKpAOwYC.D0ereLuZm/dsVOFbb.rWRA",
    ),
    (
        b"correct horse",
        b"$7$0/..../....sssssssssssssssssssssssssssssssssssssssssssssssssssssssssssssssssssssssssssssssssssssssssssssssssssssssssssssssssssssssssssssssssssssssssssssssssssssssssssssssssssssssssssssssssssssssssssssssssssssssssssssssssssssssssssssssssssssssssssssssssssssssssssssssssssssssssssssssssssssssssssssssssssssssssssssssssssssssssssssssssssss",
        b"$7$0/..../....sssssssssssssssssssssssssssssssssssssssssssssssssssssssssssssssssssssssssssssssssssssssssssssssssssssssssssssssssssssssssssssssssssssssssssssssssssssssssssssssssssssssssssssssssssssssssssssssssssssssssssssssssssssssssssssssssssssssssssssssssssssssssssssssssssssssssssssssssssssssssssssssssssssssssssssssssssssssssssssssssssss$5IeUaaTE2AFZOPVXPnQKu4LXaI9bwlvB44wh4ec0SM1",
    ),
    (
        b"\x01 $\x7f\x80\xa3\xfe\xff",
        b"$7$0/..../....salt",
        b"$7$0/..../....salt$wlT5/RQ4/DLNlrmgnnHxyO07LTJ5/1jsqkhtG4nNE38",
    ),
    (
        b"correct horse",
        b"$7$1/..../3...salt$x",
        b"$7$1/..../3...salt$2y/hfz0VLSFNfezwuZECrrndCnhP52egjIZ1QLVueHA",
    ),
];

const YESCRYPT_TEXTS: [(&[u8], &[u8], &[u8]); 7] = [
    (
        b"correct horse",
        b"$y$j/.$",
        b"$y$j/.$$yi73bi49yV5gSZpQzcalPHkMerQ2ZZM5Vgw1p7dRmP2",
    ),
    (
        b"correct horse",
        b"$y$j/.$salt$-",
        b"$y$j/.$salt$0fGJAYkwV8Z5xHxVYcDoReSFBoJtjaSy3L07X3cuk/.",
    ),
    (
        b"correct horse",
        b"$y$j/.$a1",
        b"$y$j/.$a1$DRz2BrvEN9XcdGKqyIIaH/qOvSUZT5U/fJLJYG.pdl3",
    ),
    (
        b"correct horse",
        b"$y$j/.$abD",
        b"$y$j/.$abD$Sp8.23EEDqNeGKECNHe9MM3GKhgyf6SU9.kzcYKCHcD",
    ),
    (
        b"correct horse",
        b"$y$j/.$salt$hash",
        b"$y$j/.$salt$0fGJAYkwV8Z5xHxVYcDoReSFBoJtjaSy3L07X3cuk/.",
    ),
    (
        b"correct horse",
        b"$y$j/.$01234567890123456789012345678901234567890123456789012345678901234567890123456789abcde/",
        b"$y$j/.$01234567890123456789012345678901234567890123456789012345678901234567890123456789abcde/$/gvGMzejal7S5E7m1qgJTEcUSLmGQ69FqV6ivYTI4V9",
    ),
    (
        b"\x01 $\x7f\x80\xa3\xfe\xff",
        b"$y$j/.$salt",
        b"$y$j/.$salt$kOBYw9IfRkJy4p36b.MLUWl7tPKElQFhwOLZnm2NKA.",
    ),
];

// A phrase, a setting, and why crypt(3) gives no text for them: ERANGE and EINVAL there. A setting `$2x$` and one of DES are
// refused here alone.
const REFUSED: [(&[u8], &[u8], CryptError); 52] = [
    (b"correct horse", b"$5$rounds=$s", CryptError::Setting),
    (b"correct horse", b"$5$rounds=1000", CryptError::Setting),
    (b"correct horse", b"$6$rounds=01000$s", CryptError::Setting),
    (b"correct horse", b"$6$rounds=+1000$s", CryptError::Setting),
    (b"correct horse", b"$5$rounds=999$s", CryptError::Setting),
    (
        b"correct horse",
        b"$6$rounds=1000000000$s",
        CryptError::Setting,
    ),
    (
        b"correct horse",
        b"$6$rounds=18446744073709552616$s",
        CryptError::Setting,
    ),
    (b"correct horse", b"$6$rounds=1000x$s", CryptError::Setting),
    (b"correct horse", b"$6$rounds=x$1000$s", CryptError::Setting),
    (
        b"correct horse",
        b"$2b$03$abcdefghijklmnopqrstuu",
        CryptError::Setting,
    ),
    (
        b"correct horse",
        b"$2b$32$abcdefghijklmnopqrstuu",
        CryptError::Setting,
    ),
    (
        b"correct horse",
        b"$2b$4$abcdefghijklmnopqrstuuu",
        CryptError::Setting,
    ),
    (
        b"correct horse",
        b"$2b$+4$abcdefghijklmnopqrstuu",
        CryptError::Setting,
    ),
    (
        b"correct horse",
        b"$2b$04$abcdefghijklmnopqrstu",
        CryptError::Setting,
    ),
    (
        b"correct horse",
        b"$2b$04$abcdefghijklmnopqrstu-",
        CryptError::Setting,
    ),
    (
        b"correct horse",
        b"$2b$04.abcdefghijklmnopqrstuu",
        CryptError::Setting,
    ),
    (
        b"correct horse",
        b"$2$04$abcdefghijklmnopqrstuu",
        CryptError::Setting,
    ),
    (
        b"correct horse",
        b"$2x$04$abcdefghijklmnopqrstuu",
        CryptError::Setting,
    ),
    (
        b"correct horse",
        b"$7$0/..../....s$x-y",
        CryptError::Setting,
    ),
    (b"correct horse", b"$7$0/..../....a-", CryptError::Setting),
    (
        b"correct horse",
        b"$7$0/..../....ssssssssssssssssssssssssssssssssssssssssssssssssssssssssssssssssssssssssssssssssssssssssssssssssssssssssssssssssssssssssssssssssssssssssssssssssssssssssssssssssssssssssssssssssssssssssssssssssssssssssssssssssssssssssssssssssssssssssssssssssssssssssssssssssssssssssssssssssssssssssssssssssssssssssssssssssssssssssssssssssssssss",
        CryptError::TooLong,
    ),
    (b"correct horse", b"$7$0/..../...", CryptError::Setting),
    (b"correct horse", b"$7$/6..../....s", CryptError::Setting),
    (b"correct horse", b"$7$0...../....s", CryptError::Setting),
    (b"correct horse", b"$7$0-..../....s", CryptError::Setting),
    (b"correct horse", b"$y$j/.$a", CryptError::Setting),
    (b"correct horse", b"$y$j/.$a2", CryptError::Setting),
    (b"correct horse", b"$y$j/.$abE", CryptError::Setting),
    (b"correct horse", b"$y$j/.$salt$x$y", CryptError::Setting),
    (b"correct horse", b"$y$j/.$salt$$", CryptError::Setting),
    (
        b"correct horse",
        b"$y$j/.$01234567890123456789012345678901234567890123456789012345678901234567890123456789abcdef0.",
        CryptError::Setting,
    ),
    (
        b"correct horse",
        b"$y$j/.$salt$xxxxxxxxxxxxxxxxxxxxxxxxxxxxxxxxxxxxxxxxxxxxxxxxxxxxxxxxxxxxxxxxxxxxxxxxxxxxxxxxxxxxxxxxxxxxxxxxxxxxxxxxxxxxxxxxxxxxxxxxxxxxxxxxxxxxxxxxxxxxxxxxxxxxxxxxxxxxxxxxxxxxxxxxxxxxxxxxxxxxxxxxxxxxxxxxxxxxxxxxxxxxxxxxxxxxxxxxxxxxxxxxxxxxxxxxxxxxxxxxxxxxxxxxxxxxxxxxxxxxxxxxxxxxxxxxxxxxxxxxxxxxxxxxxxxxxxxxxxxxxxxxxxxxxxxxxxxxxxxxxxxxxxxxxx",
        CryptError::TooLong,
    ),
    (b"correct horse", b"$y$j/.", CryptError::Setting),
    (b"correct horse", b"$y$j5$salt", CryptError::Setting),
    (b"correct horse", b"$y$$s", CryptError::Setting),
    (&[b'a'; 512], b"x", CryptError::TooLong),
    (&[b'a'; 512], b"*0", CryptError::TooLong),
    (&[b'a'; 512], b"$1$salt", CryptError::TooLong),
    (b"correct horse", b"$1$salt$\x01", CryptError::Setting),
    (b"correct horse", b"$1$salt$ ", CryptError::Setting),
    (b"correct horse", b"$1$salt$\x7f", CryptError::Setting),
    (b"correct horse", b"$1$salt$\xff", CryptError::Setting),
    (b"correct horse", b"$1$salt$!", CryptError::Setting),
    (b"correct horse", b"$1$salt$:", CryptError::Setting),
    (b"correct horse", b"$1$salt$\\", CryptError::Setting),
    (b"correct horse", b"", CryptError::Setting),
    (b"correct horse", b"*0", CryptError::Setting),
    (b"correct horse", b"$1", CryptError::Setting),
    (b"correct horse", b"$9$salt", CryptError::Setting),
    (b"correct horse", b"$apr1$salt$", CryptError::Setting),
    (b"correct horse", b"$6", CryptError::Setting),
    (b"correct horse", b"abJnggxhB/yWI", CryptError::Setting),
];

// A prefix, a count and a number of random bytes, and the setting that crypt_gensalt_rn gives for them.
const NEW: [(&[u8], u64, usize, &[u8]); 30] = [
    (b"$1$", 0, 3, b"$1$"),
    (b"$1$", 0, 4, b"$1$7vy2"),
    (b"$1$", 0, 7, b"$1$7vy2soZU"),
    (b"$1$", 0, 9, b"$1$7vy2soZU"),
    (b"$1$", 0, 80, b"$1$7vy2soZU"),
    (b"$5$", 0, 4, b"$5$7vy2"),
    (b"$5$", 0, 13, b"$5$7vy2soZUbmQwKg1M"),
    (b"$5$", 0, 80, b"$5$7vy2soZUbmQwKg1M"),
    (b"$6$", 1, 15, b"$6$rounds=1000$7vy2soZUbmQwKg1M"),
    (b"$6$", 1000, 15, b"$6$rounds=1000$7vy2soZUbmQwKg1M"),
    (b"$6$", 5000, 15, b"$6$7vy2soZUbmQwKg1M"),
    (b"$6$", 5001, 15, b"$6$rounds=5001$7vy2soZUbmQwKg1M"),
    (
        b"$6$",
        999999999,
        15,
        b"$6$rounds=999999999$7vy2soZUbmQwKg1M",
    ),
    (
        b"$6$",
        1000000000,
        15,
        b"$6$rounds=999999999$7vy2soZUbmQwKg1M",
    ),
    (
        b"$6$",
        18446744073709551615,
        15,
        b"$6$rounds=999999999$7vy2soZUbmQwKg1M",
    ),
    (b"$2b$", 0, 16, b"$2b$05$wc2RMD0An6xvDhrefYpN7."),
    (b"$2b$", 4, 16, b"$2b$04$wc2RMD0An6xvDhrefYpN7."),
    (b"$2b$", 31, 16, b"$2b$31$wc2RMD0An6xvDhrefYpN7."),
    (b"$2y$12$", 10, 17, b"$2y$10$wc2RMD0An6xvDhrefYpN7."),
    (b"$7$", 6, 16, b"$7$BU..../....7vy2soZUbmQwKg1M3euno1"),
    (b"$7$", 11, 16, b"$7$GU..../....7vy2soZUbmQwKg1M3euno1"),
    (b"$7$", 0, 17, b"$7$CU..../....7vy2soZUbmQwKg1M3eunob/"),
    (
        b"$7$",
        0,
        64,
        b"$7$CU..../....7vy2soZUbmQwKg1M3eunobVDXVMfGTD5/NqWkKhyTEIOCC9qx9mFg3dhP1E78x4Ztux.coYQLmPs4g0IpdtjY1",
    ),
    (
        b"$7$",
        0,
        80,
        b"$7$CU..../....7vy2soZUbmQwKg1M3eunobVDXVMfGTD5/NqWkKhyTEIOCC9qx9mFg3dhP1E78x4Ztux.coYQLmPs4g0IpdtjY1",
    ),
    (b"$y$", 1, 16, b"$y$j75$7vy2soZUbmQwKg1M3euno1"),
    (b"$y$", 2, 16, b"$y$j85$7vy2soZUbmQwKg1M3euno1"),
    (b"$y$", 3, 16, b"$y$j7T$7vy2soZUbmQwKg1M3euno1"),
    (b"$y$", 11, 16, b"$y$jFT$7vy2soZUbmQwKg1M3euno1"),
    (b"$y$", 0, 18, b"$y$j9T$7vy2soZUbmQwKg1M3eunobVD"),
    (
        b"$y$",
        0,
        80,
        b"$y$j9T$7vy2soZUbmQwKg1M3eunobVDXVMfGTD5/NqWkKhyTEIOCC9qx9mFg3dhP1E78x4Ztux.coYQLmPs4g0IpdtjY1",
    ),
];

// The same where it gives none: EINVAL there.
const NOT_NEW: [(&[u8], u64, usize); 15] = [
    (b"$1$", 0, 2),
    (b"$1$", 1, 9),
    (b"$5$", 0, 2),
    (b"$2b$", 3, 16),
    (b"$2b$", 32, 16),
    (b"$2a$", 0, 15),
    (b"$7$", 5, 16),
    (b"$7$", 12, 16),
    (b"$7$", 0, 15),
    (b"$y$", 12, 16),
    (b"$y$", 4294967297, 16),
    (b"$y$", 0, 15),
    (b"$2x$", 0, 16),
    (b"$9$", 0, 16),
    (b"$6", 0, 16),
];

// A setting, and what crypt_checksalt says of it.
const CHECKED: [(&[u8], SaltStatus); 17] = [
    (b"", SaltStatus::Invalid),
    (b"$1$salt$hash", SaltStatus::Legacy),
    (b"$5$", SaltStatus::Legacy),
    (b"$6$rounds=1$", SaltStatus::Valid),
    (b"$7$", SaltStatus::Valid),
    (b"$y$", SaltStatus::Valid),
    (b"$2b$99$", SaltStatus::Valid),
    (b"$6$a:b", SaltStatus::Invalid),
    (b"$6$a\x80", SaltStatus::Invalid),
    (b"$9$x", SaltStatus::Invalid),
    (b"!$6$salt", SaltStatus::Invalid),
    (b"$sha1$1$salt", SaltStatus::Legacy),
    (b"$sha1", SaltStatus::Legacy),
    (b"$sha1x", SaltStatus::Legacy),
    (b"$sha1$1$sa:lt", SaltStatus::Invalid),
    (b"$sha", SaltStatus::Invalid),
    (b"$sha2$1$salt", SaltStatus::Invalid),
];

// Whether the phrase and the setting have this text, and the phrase and the text have it too, where it is no longer than a
// setting of its method may be.
fn is_text(alloc: Global, phrase: &[u8], setting: &[u8], wanted: &[u8]) -> bool {
    let made = match crypt_text(alloc, phrase, setting) {
        Ok(text) => text.as_slice() == wanted,
        Err(_) => false,
    };
    let made_again = match crypt_text(alloc, phrase, wanted) {
        Ok(text) => text.as_slice() == wanted,
        Err(e) => e == CryptError::TooLong && wanted.len() >= 340,
    };
    made && made_again
}

#[test]
fn md5_texts(rt: HostRuntime) -> Result<(), Fail> {
    for &(phrase, setting, wanted) in &MD5_TEXTS {
        assert!(rt; is_text(rt.alloc(), phrase, setting, wanted), "{setting:?}");
    }
    Ok(())
}

#[test]
fn sha_texts(rt: HostRuntime) -> Result<(), Fail> {
    for &(phrase, setting, wanted) in &SHA_TEXTS {
        assert!(rt; is_text(rt.alloc(), phrase, setting, wanted), "{setting:?}");
    }
    Ok(())
}

#[test]
fn bcrypt_texts(rt: HostRuntime) -> Result<(), Fail> {
    for &(phrase, setting, wanted) in &BCRYPT_TEXTS {
        assert!(rt; is_text(rt.alloc(), phrase, setting, wanted), "{setting:?}");
    }
    Ok(())
}

#[test]
fn scrypt_texts(rt: HostRuntime) -> Result<(), Fail> {
    for &(phrase, setting, wanted) in &SCRYPT_TEXTS {
        assert!(rt; is_text(rt.alloc(), phrase, setting, wanted), "{setting:?}");
    }
    Ok(())
}

#[test]
fn yescrypt_texts(rt: HostRuntime) -> Result<(), Fail> {
    for &(phrase, setting, wanted) in &YESCRYPT_TEXTS {
        assert!(rt; is_text(rt.alloc(), phrase, setting, wanted), "{setting:?}");
    }
    Ok(())
}

#[test]
fn refused(rt: HostRuntime) -> Result<(), Fail> {
    for &(phrase, setting, wanted) in &REFUSED {
        match crypt_text(rt.alloc(), phrase, setting) {
            Ok(_) => assert!(rt; false, "{setting:?}"),
            Err(e) => assert!(rt; e == wanted, "{setting:?} {e:?}"),
        }
    }
    Ok(())
}

// Byte i of the random bytes of the tables.
fn random_bytes() -> [u8; 80] {
    let mut bytes = [0; 80];
    for i in 0..80usize {
        bytes[i] = ((37 * i + 201) % 256) as u8;
    }
    bytes
}

#[test]
fn new_settings(rt: HostRuntime) -> Result<(), Fail> {
    let bytes = random_bytes();
    for &(prefix, count, len, wanted) in &NEW {
        match bytes
            .get(..len)
            .and_then(|random| new_setting(prefix, count, random))
        {
            Some(setting) => assert!(rt; setting.as_slice() == wanted, "{wanted:?}"),
            None => assert!(rt; false, "{wanted:?}"),
        }
    }
    for &(prefix, count, len) in &NOT_NEW {
        match bytes.get(..len) {
            Some(random) => assert!(rt;
                new_setting(prefix, count, random).is_none(),
                "{prefix:?} {count}"
            ),
            None => assert!(rt; false),
        }
    }
    Ok(())
}

// libxcrypt draws so many bytes from the system where the caller brings none.
#[test]
fn random_lens(rt: HostRuntime) -> Result<(), Fail> {
    for (prefix, wanted) in [
        (b"$1$x".as_slice(), 9),
        (b"$5$".as_slice(), 15),
        (b"$6$rounds=1".as_slice(), 15),
        (b"$2a$".as_slice(), 16),
        (b"$2b$12$".as_slice(), 16),
        (b"$2y$".as_slice(), 16),
        (b"$7$".as_slice(), 16),
        (b"$y$j9T$".as_slice(), 16),
        (b"$sha1".as_slice(), 20),
        (b"$9$".as_slice(), 0),
        (b"$2$".as_slice(), 0),
        (b"".as_slice(), 0),
    ] {
        assert!(rt; random_len(prefix) == wanted, "{prefix:?}");
        assert!(rt; method_of(prefix).is_some() == (wanted > 0), "{prefix:?}");
    }
    assert!(rt; method_of(b"$y$") == Some(Scheme::Yescrypt));
    assert!(rt; method_of(b"$sha1") == Some(Scheme::Sha1Crypt));
    Ok(())
}

#[test]
fn checked(rt: HostRuntime) -> Result<(), Fail> {
    for &(setting, wanted) in &CHECKED {
        assert!(rt; salt_status(setting) == wanted, "{setting:?}");
    }
    Ok(())
}
