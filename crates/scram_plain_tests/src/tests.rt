//! Texts of PostgreSQL and Dovecot, the exchange of RFC 7677, and each fault.

ghost use Rattle.std.specs.Prelude.{◌≤◌, length};

use base64ct::{Base64, Counts, Encoding};
use hmac_plain::hmac_sha256;
use scram_plain::{
    Preparation, ScramFault, laws, scram_check, scram_check_counted, scram_keys, text_cost,
};
use sha2::{Digest, Sha256};

// The passwords and the salts of the table are the fronts of these.
const PASSWORD: &[u8] =
    b"abcdefghijklmnopqrstuvwxyzABCDEFGHIJKLMNOPQRSTUVWXYZ0123456789abcdefghijklmnopqrstuvwxyzABCDEFGHIJKLMNOPQRSTUVWXYZ0123456789\xc3\xa9\xff\x80\x01 \t~zyxwvutsrqponmlkjihgfedcbaZYXWVUTSRQPONMLKJIHGFEDCBA9876543210zyxwvutsrqponmlkjihgfedcbaZYXWVUTSRQPONMLKJIHGFEDCBA9876543210zyxwvutsrqponmlkjihgfedcbaZYXWVUTSRQPONMLKJI";

const SALT: &[u8] =
    b"\xc8\xed\x127\\\x81\xa6\xcb\xf0\x15:_\x84\xa9\xce\xf3\x18=b\x87\xac\xd1\xf6\x1b@e\x8a\xaf\xd4\xf9\x1eCh\x8d\xb2\xd7\xfc!Fk\x90\xb5\xda\xff$In\x93\xb8\xdd\x02'Lq\x96\xbb\xe0\x05*Ot\x99\xbe\xe3\x08-Rw\x9c\xc1\xe6\x0b0Uz\x9f\xc4\xe9\x0e3X}\xa2\xc7\xec\x116[\x80\xa5\xca\xef\x149^\x83\xa8\xcd\xf2\x17";

// The lengths of a password and a salt, the rounds, and both keys in Base64, of Python's hashlib and hmac.
const KEYS: &[(usize, usize, u32, &str, &str)] = &[
    (
        0,
        1,
        1,
        "z79i/FJKJOJ1prWdM2MoXGMjGR18jl0WMiQpWue81qk=",
        "QKuKsY0GOog5jR+hKbKeZ0u4pRb8qUsOduN/lM5k4r0=",
    ),
    (
        1,
        48,
        2,
        "2vCp1M9SCoB8NVhVX15b+7Fd5sh/bLMAriG2c3aYEMg=",
        "IrcrBzsj+jL85kT7JZZOEfMG6IdNJGI5yDo1RIUo1sA=",
    ),
    (
        8,
        0,
        1,
        "+VGI2e7L/5iwLhALi4j9Gj5sOa/O7ymzGwanph1Y63I=",
        "CLDgbAKevxS9XJXGCSmTbRZibE36CyXmzI8+zEjbXLk=",
    ),
    (
        8,
        100,
        2,
        "WP0/JWANkRA5b7hJPoywBezPb8+03mMDsUu+LOXaNM0=",
        "3xGhkLnT7ksnTkdt0i5+CbkwZQ4SM9dHId0HB/s7pR8=",
    ),
    (
        20,
        16,
        10,
        "wZL9irUnvNKDPXjYPXqk28glVFWlYe2pOLjrLxX4/7w=",
        "qC2Ci+RSf+M+Me2X08//pyRFjgoEH4efPMVgulmmCy4=",
    ),
    (
        63,
        3,
        1,
        "xCf20lIDuOT+Z/0ou54j+F3+hcmLn9/pij534TNj/Yc=",
        "j2Jdoo/9zPLMRLfTVqeJujL9m+HxM4YjDujE/vRVIkQ=",
    ),
    (
        64,
        8,
        2,
        "melmVzJez2nJ+7JGkb0rvCalu0VlFEf4KWOyqh+aFzs=",
        "xr7AkdQXMIwzVNOaq0kQX9yKiq4ct2C5N1ltqwQbAuk=",
    ),
    (
        65,
        20,
        1,
        "5/7+/zxSpsKqJtEB+XH3j181/C7FY17JAjuHF9Swdd0=",
        "3Dp1laZRl+kIb3Aojmfea12wqiYAwuHESgy8I82tSsg=",
    ),
    (
        132,
        33,
        3,
        "qm6VYRnzUY9pCmB/hwxqC5UsOSFwSr1hUlbhsJnM8oc=",
        "Wn2Q9jHCZgmmlwM6j0Saj5FhwEt4KK89XgXou5Wv5HA=",
    ),
    (
        255,
        47,
        99,
        "buqiWNlvv7M/Jo/QU6Zu8tt05/3Gc6iB8gHxxH+9OtE=",
        "IWGWWldl6mYO3pYrKnhsJR9VRTym7kRETUXD60uGPb8=",
    ),
    (
        300,
        2,
        2,
        "+WmdhDdm0ICYjies7AWXTbRcjYp12mbTjRjtCNhsB54=",
        "JW3bxrDpKRducV4FmIEeridRB4LGQtr8R5DupRGtUDk=",
    ),
    (
        9,
        16,
        1000,
        "uYTSVny20jgpCTR8vmR9yxJ6FnEp/5RffQ8+BVo5up4=",
        "khtBLVchh11IkRyuKzezWj2l8yDYuznqJRCP5lNMTI0=",
    ),
];

// The first bytes of a text.
fn front(bytes: &[u8], count: usize) -> &[u8]
    ensures { length result.now ≤ length bytes.now }
{
    if count < bytes.len() {
        &bytes[..count]
    } else {
        bytes
    }
}

// Whether a text is the Base64 of a key.
fn is_written(key: &[u8; 32], text: &str) -> bool {
    let mut room = [0; 44];
    Base64::encode(key, &mut room) == Ok(text)
}

// Whether two texts are those of the keys.
fn are_keys(password: &[u8], salt: &[u8], rounds: u32, stored: &str, server: &str) -> bool
    requires { 1 ≤ rounds }
{
    let keys = scram_keys(password, salt, rounds);
    is_written(&keys.stored, stored) && is_written(&keys.server, server)
}

#[test]
fn keys(rt: HostRuntime) {
    for (password, salt, rounds, stored, server) in KEYS {
        assert!(rt; 1 <= *rounds);
        let are = are_keys(
            front(PASSWORD, *password),
            front(SALT, *salt),
            *rounds,
            stored,
            server,
        );
        assert!(rt; are, "{stored}");
    }
}

// RFC 7677, section 3: the salt, what both sides sign, the client's proof and the server's signature, of the password `pencil` after
// 4,096 rounds.
const EXCHANGE_SALT: &[u8] = b"[m\x99h\x9d\x125\x8e\xec\xa0K\x14\x126\xfa\x81";

const SIGNED: &[u8] =
    b"n=user,r=rOprNGfwEbeRWgbNEkqO,r=rOprNGfwEbeRWgbNEkqO%hvYDpWUa2RaTCAfuxFIlj)hNlF$k0,s=W22ZaJ0SNY7soEsUEjb6gQ==,i=4096,c=biws,r=rOprNGfwEbeRWgbNEkqO%hvYDpWUa2RaTCAfuxFIlj)hNlF$k0";

const PROOF: [u8; 32] =
    *b"t|\xdbe\xaaV\"N#R\x13~R\xd7\xbd\xca\xd6\xa0\xf78\xdf0x,\xaai\xa2\xcf\xb0'uT";

// The client key that a proof shows to a server that has the stored key (RFC 5802, section 3).
fn shown_key(stored: &[u8; 32], proof: &[u8; 32]) -> [u8; 32] {
    let mut key = hmac_sha256(stored, SIGNED);
    for i in 0..32 {
        key[i] ^= proof[i];
    }
    key
}

// The digest of SHA-256.
fn digest_of(message: &[u8]) -> [u8; 32] {
    let mut hasher = Sha256::new();
    hasher.update(message);
    hasher.finalize()
}

#[test]
fn exchange(rt: HostRuntime) {
    let keys = scram_keys(b"pencil", EXCHANGE_SALT, 4096);
    let signature = hmac_sha256(&keys.server, SIGNED);
    assert!(rt; is_written(&signature, "6rriTRBi23WpRR/wtup+mMhUZUn/dB5nLTJRsjl95G4="));
    assert!(rt; digest_of(&shown_key(&keys.stored, &PROOF)) == keys.stored);
}

// A password and PostgreSQL's text of 4,096 rounds, and the text of RFC 7677's exchange. A text of PostgreSQL's whose password isn't ASCII is
// here with `raw` and the prepared password.
const POSTGRESQL: &[(&[u8], &str)] = &[
    (
        b"bell\x07",
        "$scram-sha-256$4096$xJNx+X5va6leMD04rDtXjA==$mqmRzY0M341ccf2Yxbvh4+kNEL5XtbCYfITVy9FbzLM=$SUQfRiwQfcUuL9YKLOr32vnZrQSGY0+hemjrc40WEio=",
    ),
    (
        b"correct horse battery",
        "$scram-sha-256$4096$tMu4kNZDQonoZ0FAjmNChQ==$xmaEu/q6i1Q8G5Y3ddjz8IFeiHYvq7iyRya2RFM/Tq0=$tVHgTuMNDgjbO4j8Sh8vDD9ljZFS0GEv+O0Oh9IJ87o=",
    ),
    (
        b"long password number one: abcdefghijabcdefghijabcdefghijabcdefghijabcdefghijabcdefghijabcdefghijabcdefghijabcdefghijabcdefghijabcdefghijabcdefghij",
        "$scram-sha-256$4096$i4CiSn83GobBw+4tR4kFCw==$nkYffjOocc5Mh9RCA8r5qsK/t4vUt4se16nwsg8U+g8=$qSd1N3BVXHij7p1dSEytBHB8+XpoFbfm4h5+uKDZic8=",
    ),
    (
        b"secret",
        "$scram-sha-256$4096$KKuwZV6QTiARVwYpYRdEYA==$mzeyc9wh1vO3fszeKs/ZRrWSBYkiSD6EsahtoLJMark=$ARZ3AEQM7sKRkXahGQ6nE9PZKKhYG/fuFpDLcFlPaO4=",
    ),
    (
        b"with\ttab:colon$dollar 'quotes\" ",
        "$scram-sha-256$4096$qNG0ae4qDjWsyEJ52uYw6w==$m9Yhf2VDfOck0ZTfhLXB77nlT62WMVIGB2pq+cQfq3k=$VMa/48PC3KFc6+TxMebzo81btLhJu9X0BovndxXjhu0=",
    ),
    (
        b"xxxxxxxxxxxxxxxxxxxxxxxxxxxxxxxxxxxxxxxxxxxxxxxxxxxxxxxxxxxxxxxxxxxxxxxxtail",
        "$scram-sha-256$4096$ezOjviH5O6MWNSV4zDQLBA==$8QjP3DLZ14C1AS+e2rMcE6tZSADM4Ljo8wOOfGlaW5w=$SOq1wRYwCYpOjCx7Qw3fypSMWBJkmmFPFHthcOoHok4=",
    ),
    (
        b"na\xc3\xafve",
        "$scram-sha-256-raw$4096$9SRxhG9zyhJgVh7/ZOxcyw==$qW/lz0/xDDazWDznqSJsx59we/y5fTUWZV8vHIQ506A=$AhXAVq+hVnmk8fABtesvRPV5kVYRmJdp3s+VhSSQbV0=",
    ),
    (
        b"na\xc3\xafve p\xc3\xa4ssw\xc3\xb6rd \xe5\xaf\x86\xe7\xa0\x81\xf0\x9f\x94\x91",
        "$scram-sha-256-raw$4096$U3gUmYnyb9NlOwI7EeM4VQ==$vqBd4VsOzUAfLFBJYeD1OEbty+MnvxG+yISKPizFOOI=$DP5YG5XbenVv0AEUfiIx75Aur4OrCdTFo9VL57ORDf0=",
    ),
    (
        b"\xd8\xa71",
        "$scram-sha-256-raw$4096$+QK+NylQtvUMzqVPvd/szA==$gJkQAO2+1x5HwM+R77E8Au+0aTT+sVIZlc90yCBbiXg=$ZZfPvMOjRi4VeaWjzjvnOKiBcbkrR4KAqX+mdaVhOms=",
    ),
    (
        b"\xc3\x85ngstr\xc3\xb6m",
        "$scram-sha-256-raw$4096$DV0BFYHZZ7QtYgpgx37/MA==$PnzhdY+rUKoTbRaPdC/L6lkdudGPacejlufYjux6TsQ=$49MOUI3iwYPE0deTFJHY2QuXI+5aQMNB5BeB3y9GTsY=",
    ),
    (
        b"pencil",
        "$scram-sha-256$4096$W22ZaJ0SNY7soEsUEjb6gQ==$WG5d8oPm3OtcPnkdi4Uo7BkeZkBFzpcXkuLmtbsT4qY=$wfPLwcE6nTWhTAmQ7tl2KeoiWGPlZqQxSrmfPwDl2dU=",
    ),
];

// A password and Dovecot's text of 4,096 rounds.
const DOVECOT: &[(&[u8], &str)] = &[
    (
        b"",
        "$scram-sha-256-raw$4096$2wsAGHPOlx02JsAZmaldqg==$YuTv1Lm3hhzcCT/4NWdkGMfzx/ZrEAD+MKhbl0PSfD4=$bQ2PPNyUmx//C6r142IngJs266q3nh2VlMka0CsqffE=",
    ),
    (
        b"correct horse battery",
        "$scram-sha-256-raw$4096$xO+mT4u1pquPG7gR9KHG0A==$tN8tBSSf97EmkgIs4/8IQ3S5a+cr9SymGHqFUOgNd0s=$SRZoaHw13KCoKUFcw8vfHOxw+hVZWKR+/NI9R07c4pk=",
    ),
    (
        b"long password number one: abcdefghijabcdefghijabcdefghijabcdefghijabcdefghijabcdefghijabcdefghijabcdefghijabcdefghijabcdefghijabcdefghijabcdefghij",
        "$scram-sha-256-raw$4096$cEbvS0eHsBs7xmVU19mwZQ==$yUwG0jaDTmQCMn7vD6NXzIm9yaWd0PMB2KtX6Yt+/Fs=$SaIh5uxN6OAD0csQeiRHH1YUXGLNJvlO1AgsPd8KvX0=",
    ),
    (
        b"na\xc3\xafve p\xc3\xa4ssw\xc3\xb6rd \xe5\xaf\x86\xe7\xa0\x81\xf0\x9f\x94\x91",
        "$scram-sha-256-raw$4096$z8jVn1bMaWGuGqIftI8PQQ==$BrhUcJsGfOfPXMIS0Y9b/3G6cRSli2EKXw7cNQ52Tb4=$EYClyhd75yThnQngeKLVE4xWykE+YVPWMTXzpnC25UU=",
    ),
    (
        b"secret",
        "$scram-sha-256-raw$4096$eT2ALwn9J59lS3e95d5cLA==$j/FIwttGABb6lm2Kv4iqJL899KAtCC0OrWnpsjzb6Pg=$MTJUwcrMkj9kd8P1ZtdphHl8Zd/6MgTytFkP1bRsy94=",
    ),
    (
        b"with\ttab:colon$dollar 'quotes\" ",
        "$scram-sha-256-raw$4096$hsrbDSMc5oswqBiE2HxnKg==$vmk87leIA0FL/KaECP021Pdk6Rld6APca6b8VuAuvAQ=$nefngZizurhJWInkPc6T8gUB7kYWYamQfhPKIZp59zM=",
    ),
    (
        b"xxxxxxxxxxxxxxxxxxxxxxxxxxxxxxxxxxxxxxxxxxxxxxxxxxxxxxxxxxxxxxxxxxxxxxxxtail",
        "$scram-sha-256-raw$4096$wQ/jhqVcgyzpCWq8g3uZqg==$Wa499RJUM2mKq8tudcO/lMz+Dy4pkFpYrM7RXw9gq9I=$5cdyUOOwyf4N6Q2tKbMr8pwNRPh1JspT8gWeVb5wUS8=",
    ),
    (
        b"secret",
        "$scram-sha-256-raw$4096$ndRKYwLVDsbs3RGT3OLVpg==$7Ycpg2PQx5C4GPWtjgENWPxG5veXs8xRoL4A6/fbrFE=$69FJ2SkVjzcqIegbYXNpez58Ud4hr6qg5cgzI1slFCo=",
    ),
];

// A password, its text, and the rounds, of Python's hashlib and hmac.
const SHORT: &[(&[u8], &str, u32)] = &[
    (
        b"a\0b",
        "$scram-sha-256$2$YWJjZGVmZ2g=$f+Nwd+tmKbzqX+bduzTG4CK9GOMC4u5KIlR4VH+Qy68=$OaT/qBBH4DNS5zFpX99kZthgPbG2R+Mq8PRj5QT3o6M=",
        2,
    ),
    (
        b"a\0c",
        "$scram-sha-256$2$YWJjZGVmZ2g=$1SbYU9l/IT+gK5dBP6HEFbf3sXvPWAhv5UlB3scNmfo=$52/VhZgHMgpWMB/ICHit/y98z8Q27fM+Gsh0VlMUv3c=",
        2,
    ),
    (
        b"a",
        "$scram-sha-256$2$YWJjZGVmZ2g=$zcpU5VPYpuTUHEgAp5ocqxJgzOxCGd6WNczQ85V3cFM=$yLVdPlA6f+cCIG5wkAIwjahE5SUQGT87EndxlshIZtE=",
        2,
    ),
    (
        b"test",
        "$scram-sha-256$1$////////////////////////////////////////////////////////////////$xAG8Ygj1+hUMGz8HpvvuFiss9NYuLHsbsIic2jz5KmI=$x1iN+6uacHly6pOkc/YEvo2zM5UzhiX9Lexq9vmRdXM=",
        1,
    ),
    (
        b"test",
        "$scram-sha-256$3$AQ==$RTkkDsadBwiXf+UpMeXwvfTY9F44Fi/U/L6HZwKOgO0=$liaAEK3oyKT5PSaa0y30tDMvL0UPGkfB4tqI4r9DSjQ=",
        3,
    ),
    (
        b"",
        "$scram-sha-256$1$c2FsdA==$ZLuasIkXZj0o2fqXcPLYzzpuBYpt3tJtvx/2hUNTwXo=$F4IbwS68ORUj5EQrkiAz/2EVcQ4SbxB346aV8BbbDbk=",
        1,
    ),
    (
        b"\xff\xfe",
        "$scram-sha-256-raw$19$c2FsdA==$p3ozohb5DdPjizB5l9ayMvpzj5aE0vMENY4AyR1upew=$BS0E3dw4mKz8eMcVO9aQY+AN0lrV/VaO4GKJaIPCyGg=",
        19,
    ),
];

// Whether a password has this answer for a text, with the numbers of a verdict.
fn is_counted(password: &[u8], stored: &str, matches: bool) -> bool {
    let mut counts = Counts::new();
    scram_check_counted(password, stored, &mut counts) == Ok(matches)
        && counts.looks() == 88
        && counts.sames() == 72
}

// The same by both calls.
fn is_verdict(password: &[u8], stored: &str, matches: bool) -> bool {
    is_counted(password, stored, matches) && scram_check(password, stored) == Ok(matches)
}

#[test]
fn postgresql(rt: HostRuntime) {
    for (password, stored) in POSTGRESQL {
        assert!(rt; is_counted(password, stored, true), "{stored}");
        assert!(rt; text_cost(stored) == Ok(4096), "{stored}");
    }
    assert!(rt; is_verdict(b"Secret", POSTGRESQL[3].1, false));
}

#[test]
fn dovecot(rt: HostRuntime) {
    for (password, stored) in DOVECOT {
        assert!(rt; is_counted(password, stored, true), "{stored}");
        assert!(rt; text_cost(stored) == Ok(4096), "{stored}");
    }
    assert!(rt; is_verdict(b"Secret", DOVECOT[4].1, false));
}

#[test]
fn verdicts(rt: HostRuntime) {
    for (password, stored, rounds) in SHORT {
        assert!(rt; is_verdict(password, stored, true), "{stored}");
        assert!(rt; is_verdict(b"a\0d", stored, false), "{stored}");
        assert!(rt; text_cost(stored) == Ok(*rounds), "{stored}");
    }
}

// PostgreSQL's text of 2,000 letters `x`.
#[test]
fn long_password(rt: HostRuntime) {
    let password = [b'x'; 2000];
    let stored =
        "$scram-sha-256$4096$Ke8YzxXgXDw2gsnyHuwmUw==$wuYkuONJ+bJM1dkYgkECFukLMRkzcTOv8/JIbKqqD6g=$pP6eqhcBjhN4R+xpFJTcsHnyO1TnfXLhPJBEcitdFoQ=";
    assert!(rt; is_verdict(&password, stored, true));
    assert!(rt; is_verdict(&password[1..], stored, false));
}

// Texts of one round that are those of the password `test` in all but one key: the server key, or the stored key, of another password; the
// last bit of the stored key; the first bit of the server key; and both keys, exchanged.
const OTHER_KEYS: &[&str] = &[
    "$scram-sha-256$1$c2FsdA==$cckgz89wR9B4zK8pCACGw/HQtRdxREEQNun3mKPaW8Y=$DHjdQWhf2UfGb66KdZjVrwxEI6+FrasCnM9Yoswga4o=",
    "$scram-sha-256$1$c2FsdA==$LzZnpJx9nyllHcButE6xdMfvR0D6Q/nY1+IfZB/t0N0=$MA/csODD3lvy6HfD+XEMAfXUt8BP3zLZZMTxWgyCEBE=",
    "$scram-sha-256$1$c2FsdA==$cckgz89wR9B4zK8pCACGw/HQtRdxREEQNun3mKPaW8c=$MA/csODD3lvy6HfD+XEMAfXUt8BP3zLZZMTxWgyCEBE=",
    "$scram-sha-256$1$c2FsdA==$cckgz89wR9B4zK8pCACGw/HQtRdxREEQNun3mKPaW8Y=$sA/csODD3lvy6HfD+XEMAfXUt8BP3zLZZMTxWgyCEBE=",
    "$scram-sha-256$1$c2FsdA==$MA/csODD3lvy6HfD+XEMAfXUt8BP3zLZZMTxWgyCEBE=$cckgz89wR9B4zK8pCACGw/HQtRdxREEQNun3mKPaW8Y=",
];

#[test]
fn both_keys_decide(rt: HostRuntime) {
    for stored in OTHER_KEYS {
        assert!(rt; is_verdict(b"test", stored, false), "{stored}");
    }
    assert!(rt;
        is_verdict(
            b"test",
            "$scram-sha-256$1$c2FsdA==$cckgz89wR9B4zK8pCACGw/HQtRdxREEQNun3mKPaW8Y=$MA/csODD3lvy6HfD+XEMAfXUt8BP3zLZZMTxWgyCEBE=",
            true
        )
    );
}

#[test]
fn counts_added(rt: HostRuntime) {
    let mut counts = Counts::new();
    let stored =
        "$scram-sha-256$1$c2FsdA==$ZLuasIkXZj0o2fqXcPLYzzpuBYpt3tJtvx/2hUNTwXo=$F4IbwS68ORUj5EQrkiAz/2EVcQ4SbxB346aV8BbbDbk=";
    assert!(rt; scram_check_counted(b"", stored, &mut counts) == Ok(true));
    assert!(rt; scram_check_counted(b"x", stored, &mut counts) == Ok(false));
    assert!(rt; counts.looks() == 176 && counts.sames() == 144);
}

// A password that isn't ASCII, as PostgreSQL prepares it, and PostgreSQL's text. The preparations are those of Python's stringprep, by the
// rules of RFC 4013; a password that these prohibit is taken as it is.
const UNPREPARED: &[(&[u8], &[u8], &str)] = &[
    (
        b"I\xc2\xadX",
        b"IX",
        "$scram-sha-256$4096$ZxM7jyXXw0cIJhx8OfceRA==$h2M4A2JruOaj/73b11s6b8hGOE+F/1CTdpBJ4w3hgdc=$bc4z8IfDW5Aw7Kgjl3VR5fU54Kgle29ofs6a+DEpdKo=",
    ),
    (
        b"a\xc2\xa0b",
        b"a b",
        "$scram-sha-256$4096$Xo02keR52KdDX2/aAZBnIw==$J+9I+ZO56Au1ToCs24h3Wzrv5hbkVCKQYu8IexKu064=$AySUMHSuCHSfKllLXDIkJqH3WlcaexDg5QoVhjOW/fs=",
    ),
    (
        b"nai\xcc\x88ve",
        b"na\xc3\xafve",
        "$scram-sha-256$4096$9SRxhG9zyhJgVh7/ZOxcyw==$qW/lz0/xDDazWDznqSJsx59we/y5fTUWZV8vHIQ506A=$AhXAVq+hVnmk8fABtesvRPV5kVYRmJdp3s+VhSSQbV0=",
    ),
    (
        b"na\xc3\xafve p\xc3\xa4ssw\xc3\xb6rd \xe5\xaf\x86\xe7\xa0\x81\xf0\x9f\x94\x91",
        b"na\xc3\xafve p\xc3\xa4ssw\xc3\xb6rd \xe5\xaf\x86\xe7\xa0\x81\xf0\x9f\x94\x91",
        "$scram-sha-256$4096$U3gUmYnyb9NlOwI7EeM4VQ==$vqBd4VsOzUAfLFBJYeD1OEbty+MnvxG+yISKPizFOOI=$DP5YG5XbenVv0AEUfiIx75Aur4OrCdTFo9VL57ORDf0=",
    ),
    (
        b"\xc2\xaa",
        b"a",
        "$scram-sha-256$4096$lqDe4nwntgGkeJHnz632eA==$oZmKZqz27KylZttf4yEN7iEYm5H/0w+ls6H/IfRx5vA=$TBvYyNbZLKY3HZUZNK3P9nELXo61XqwK+oPuuCd0yA8=",
    ),
    (
        b"\xd8\xa71",
        b"\xd8\xa71",
        "$scram-sha-256$4096$+QK+NylQtvUMzqVPvd/szA==$gJkQAO2+1x5HwM+R77E8Au+0aTT+sVIZlc90yCBbiXg=$ZZfPvMOjRi4VeaWjzjvnOKiBcbkrR4KAqX+mdaVhOms=",
    ),
    (
        b"\xe2\x84\xabngstr\xc3\xb6m",
        b"\xc3\x85ngstr\xc3\xb6m",
        "$scram-sha-256$4096$DV0BFYHZZ7QtYgpgx37/MA==$PnzhdY+rUKoTbRaPdC/L6lkdudGPacejlufYjux6TsQ=$49MOUI3iwYPE0deTFJHY2QuXI+5aQMNB5BeB3y9GTsY=",
    ),
    (
        b"\xe2\x85\xa8",
        b"IX",
        "$scram-sha-256$4096$vf83GP4P/16i7cbvM0TACg==$Yokszx8KAsD3xEUNCZ+WXch1YpxkI0gaQ+EVrxtSvTI=$oC3pNfP+6jkf/lvZFaekgjNElYy3flEr7LlphrtnBuU=",
    ),
    (
        b"\xef\xac\x81sh",
        b"fish",
        "$scram-sha-256$4096$JjuhtKe7Tfqx/pZIlFUiRQ==$pY4vAiHBmGeOYI/FBS8+GFNKgsBca+F07xqZxtHY2OM=$r/lAIvLh6U+r2eDRIqqw04+mVnbbXdfxZfmXKcIrr+g=",
    ),
];

// The answer for a prepared password: a match where it is ASCII.
fn is_prepared(password: &[u8], stored: &str) -> bool {
    if Preparation::SaslPrep.leaves(password) {
        scram_check(password, stored) == Ok(true)
    } else {
        scram_check(password, stored) == Err(ScramFault::NotAscii)
    }
}

// Whether a password is refused for a text, after the keys are read.
fn is_refused(password: &[u8], stored: &str) -> bool {
    let mut counts = Counts::new();
    scram_check_counted(password, stored, &mut counts) == Err(ScramFault::NotAscii)
        && counts.looks() == 88
        && counts.sames() == 8
        && scram_check(password, stored) == Err(ScramFault::NotAscii)
}

#[test]
fn passwords_to_prepare(rt: HostRuntime) {
    for (password, prepared, stored) in UNPREPARED {
        assert!(rt; is_refused(password, stored), "{stored}");
        assert!(rt; is_prepared(prepared, stored), "{stored}");
        assert!(rt; text_cost(stored) == Ok(4096), "{stored}");
    }
    assert!(rt; scram_check(b"IX", UNPREPARED[0].2) == Ok(true));
}

#[test]
fn preparations(rt: HostRuntime) {
    assert!(rt; Preparation::SaslPrep.identifier() == "scram-sha-256");
    assert!(rt; Preparation::Raw.identifier() == "scram-sha-256-raw");
    assert!(rt; Preparation::SaslPrep.leaves(b"a\0\x7f"));
    assert!(rt; !Preparation::SaslPrep.leaves(b"a\x80b"));
    assert!(rt; Preparation::Raw.leaves(b"a\x80b"));
}

// Texts and their first fault. Each text but the first of a fault has a later fault too, or is near to one without a fault.
const FAULTS: &[(&str, ScramFault)] = &[
    ("", ScramFault::WrongId),
    (
        "scram-sha-256$1$YWJjZGVmZ2g=$cckgz89wR9B4zK8pCACGw/HQtRdxREEQNun3mKPaW8Y=$MA/csODD3lvy6HfD+XEMAfXUt8BP3zLZZMTxWgyCEBE=",
        ScramFault::NoDollar,
    ),
    ("x$scram-sha-1", ScramFault::NoDollar),
    (
        " $scram-sha-256$1$YWJjZGVmZ2g=$cckgz89wR9B4zK8pCACGw/HQtRdxREEQNun3mKPaW8Y=$MA/csODD3lvy6HfD+XEMAfXUt8BP3zLZZMTxWgyCEBE=",
        ScramFault::NoDollar,
    ),
    ("$", ScramFault::WrongId),
    (
        "$scram-sha-1$1$YWJjZGVmZ2g=$cckgz89wR9B4zK8pCACGw/HQtRdxREEQNun3mKPaW8Y=$MA/csODD3lvy6HfD+XEMAfXUt8BP3zLZZMTxWgyCEBE=",
        ScramFault::WrongId,
    ),
    (
        "$scram-sha-256-plus$1$YWJjZGVmZ2g=$cckgz89wR9B4zK8pCACGw/HQtRdxREEQNun3mKPaW8Y=$MA/csODD3lvy6HfD+XEMAfXUt8BP3zLZZMTxWgyCEBE=",
        ScramFault::WrongId,
    ),
    (
        "$SCRAM-SHA-256$1$YWJjZGVmZ2g=$cckgz89wR9B4zK8pCACGw/HQtRdxREEQNun3mKPaW8Y=$MA/csODD3lvy6HfD+XEMAfXUt8BP3zLZZMTxWgyCEBE=",
        ScramFault::WrongId,
    ),
    ("$scram-sha-256-raw-x", ScramFault::WrongId),
    ("$scram-sha-25$", ScramFault::WrongId),
    ("$scram-sha-256", ScramFault::NoRounds),
    ("$scram-sha-256-raw", ScramFault::NoRounds),
    ("$scram-sha-256$", ScramFault::NoSalt),
    ("$scram-sha-256$1", ScramFault::NoSalt),
    ("$scram-sha-256$x", ScramFault::NoSalt),
    ("$scram-sha-256$x$", ScramFault::NoStoredKey),
    ("$scram-sha-256$1$YWJjZGVmZ2g=", ScramFault::NoStoredKey),
    ("$scram-sha-256$x$$", ScramFault::NoServerKey),
    (
        "$scram-sha-256$1$YWJjZGVmZ2g=$cckgz89wR9B4zK8pCACGw/HQtRdxREEQNun3mKPaW8Y=",
        ScramFault::NoServerKey,
    ),
    (
        "$scram-sha-256-raw$1$YWJjZGVmZ2g=$cckgz89wR9B4zK8pCACGw/HQtRdxREEQNun3mKPaW8Y=",
        ScramFault::NoServerKey,
    ),
    (
        "$scram-sha-256$1$YWJjZGVmZ2g=$cckgz89wR9B4zK8pCACGw/HQtRdxREEQNun3mKPaW8Y=:MA/csODD3lvy6HfD+XEMAfXUt8BP3zLZZMTxWgyCEBE=",
        ScramFault::NoServerKey,
    ),
    ("$scram-sha-256$x$$$$", ScramFault::Trailing),
    (
        "$scram-sha-256$1$YWJjZGVmZ2g=$cckgz89wR9B4zK8pCACGw/HQtRdxREEQNun3mKPaW8Y=$MA/csODD3lvy6HfD+XEMAfXUt8BP3zLZZMTxWgyCEBE=$",
        ScramFault::Trailing,
    ),
    (
        "$scram-sha-256$1$YWJjZGVmZ2g=$cckgz89wR9B4zK8pCACGw/HQtRdxREEQNun3mKPaW8Y=$MA/csODD3lvy6HfD+XEMAfXUt8BP3zLZZMTxWgyCEBE=$x$y",
        ScramFault::Trailing,
    ),
    (
        "$scram-sha-256$$YWJjZGVmZ2g=$cckgz89wR9B4zK8pCACGw/HQtRdxREEQNun3mKPaW8Y=$MA/csODD3lvy6HfD+XEMAfXUt8BP3zLZZMTxWgyCEBE=",
        ScramFault::Rounds,
    ),
    (
        "$scram-sha-256$0$YWJjZGVmZ2g=$cckgz89wR9B4zK8pCACGw/HQtRdxREEQNun3mKPaW8Y=$MA/csODD3lvy6HfD+XEMAfXUt8BP3zLZZMTxWgyCEBE=",
        ScramFault::Rounds,
    ),
    (
        "$scram-sha-256$01$YWJjZGVmZ2g=$cckgz89wR9B4zK8pCACGw/HQtRdxREEQNun3mKPaW8Y=$MA/csODD3lvy6HfD+XEMAfXUt8BP3zLZZMTxWgyCEBE=",
        ScramFault::Rounds,
    ),
    (
        "$scram-sha-256$00$YWJjZGVmZ2g=$cckgz89wR9B4zK8pCACGw/HQtRdxREEQNun3mKPaW8Y=$MA/csODD3lvy6HfD+XEMAfXUt8BP3zLZZMTxWgyCEBE=",
        ScramFault::Rounds,
    ),
    (
        "$scram-sha-256$+1$YWJjZGVmZ2g=$cckgz89wR9B4zK8pCACGw/HQtRdxREEQNun3mKPaW8Y=$MA/csODD3lvy6HfD+XEMAfXUt8BP3zLZZMTxWgyCEBE=",
        ScramFault::Rounds,
    ),
    (
        "$scram-sha-256$1 $YWJjZGVmZ2g=$cckgz89wR9B4zK8pCACGw/HQtRdxREEQNun3mKPaW8Y=$MA/csODD3lvy6HfD+XEMAfXUt8BP3zLZZMTxWgyCEBE=",
        ScramFault::Rounds,
    ),
    (
        "$scram-sha-256$-1$YWJjZGVmZ2g=$cckgz89wR9B4zK8pCACGw/HQtRdxREEQNun3mKPaW8Y=$MA/csODD3lvy6HfD+XEMAfXUt8BP3zLZZMTxWgyCEBE=",
        ScramFault::Rounds,
    ),
    (
        "$scram-sha-256$4294967296$YWJjZGVmZ2g=$cckgz89wR9B4zK8pCACGw/HQtRdxREEQNun3mKPaW8Y=$MA/csODD3lvy6HfD+XEMAfXUt8BP3zLZZMTxWgyCEBE=",
        ScramFault::Rounds,
    ),
    (
        "$scram-sha-256$18446744073709551617$YWJjZGVmZ2g=$cckgz89wR9B4zK8pCACGw/HQtRdxREEQNun3mKPaW8Y=$MA/csODD3lvy6HfD+XEMAfXUt8BP3zLZZMTxWgyCEBE=",
        ScramFault::Rounds,
    ),
    (
        "$scram-sha-256$1x$$cckgz89wR9B4zK8pCACGw/HQtRdxREEQNun3mKPaW8Y=$MA/csODD3lvy6HfD+XEMAfXUt8BP3zLZZMTxWgyCEBE=",
        ScramFault::Rounds,
    ),
    (
        "$scram-sha-256$4096,$YWJjZGVmZ2g=$cckgz89wR9B4zK8pCACGw/HQtRdxREEQNun3mKPaW8Y=$MA/csODD3lvy6HfD+XEMAfXUt8BP3zLZZMTxWgyCEBE=",
        ScramFault::Rounds,
    ),
    (
        "$scram-sha-256$1$$cckgz89wR9B4zK8pCACGw/HQtRdxREEQNun3mKPaW8Y=$MA/csODD3lvy6HfD+XEMAfXUt8BP3zLZZMTxWgyCEBE=",
        ScramFault::SaltLength,
    ),
    (
        "$scram-sha-256$1$AAAAAAAAAAAAAAAAAAAAAAAAAAAAAAAAAAAAAAAAAAAAAAAAAAAAAAAAAAAAAAAAA$cckgz89wR9B4zK8pCACGw/HQtRdxREEQNun3mKPaW8Y=$MA/csODD3lvy6HfD+XEMAfXUt8BP3zLZZMTxWgyCEBE=",
        ScramFault::SaltLength,
    ),
    (
        "$scram-sha-256$1$--------------------------------------------------------------------$x$",
        ScramFault::SaltLength,
    ),
    (
        "$scram-sha-256$1$AAAAAAAAAAAAAAAAAAAAAAAAAAAAAAAAAAAAAAAAAAAAAAAAAAAAAAAAAAAAAAAAAAAA$cckgz89wR9B4zK8pCACGw/HQtRdxREEQNun3mKPaW8Y=$MA/csODD3lvy6HfD+XEMAfXUt8BP3zLZZMTxWgyCEBE=",
        ScramFault::SaltLength,
    ),
    (
        "$scram-sha-256$1$YWJjZGVmZ2g$cckgz89wR9B4zK8pCACGw/HQtRdxREEQNun3mKPaW8Y=$MA/csODD3lvy6HfD+XEMAfXUt8BP3zLZZMTxWgyCEBE=",
        ScramFault::SaltEncoding,
    ),
    (
        "$scram-sha-256$1$YWJjZGVmZ2h=$cckgz89wR9B4zK8pCACGw/HQtRdxREEQNun3mKPaW8Y=$MA/csODD3lvy6HfD+XEMAfXUt8BP3zLZZMTxWgyCEBE=",
        ScramFault::SaltEncoding,
    ),
    (
        "$scram-sha-256$1$YWJjZGVmZ2g==$cckgz89wR9B4zK8pCACGw/HQtRdxREEQNun3mKPaW8Y=$MA/csODD3lvy6HfD+XEMAfXUt8BP3zLZZMTxWgyCEBE=",
        ScramFault::SaltEncoding,
    ),
    (
        "$scram-sha-256$1$YWJj-GVmZ2g=$cckgz89wR9B4zK8pCACGw/HQtRdxREEQNun3mKPaW8Y=$MA/csODD3lvy6HfD+XEMAfXUt8BP3zLZZMTxWgyCEBE=",
        ScramFault::SaltEncoding,
    ),
    (
        "$scram-sha-256$1$YWJjZGVm Z2g$cckgz89wR9B4zK8pCACGw/HQtRdxREEQNun3mKPaW8Y=$MA/csODD3lvy6HfD+XEMAfXUt8BP3zLZZMTxWgyCEBE=",
        ScramFault::SaltEncoding,
    ),
    (
        "$scram-sha-256$1$====$cckgz89wR9B4zK8pCACGw/HQtRdxREEQNun3mKPaW8Y=$MA/csODD3lvy6HfD+XEMAfXUt8BP3zLZZMTxWgyCEBE=",
        ScramFault::SaltEncoding,
    ),
    (
        "$scram-sha-256$1$A$x$MA/csODD3lvy6HfD+XEMAfXUt8BP3zLZZMTxWgyCEBE=",
        ScramFault::SaltEncoding,
    ),
    (
        "$scram-sha-256$1$=$cckgz89wR9B4zK8pCACGw/HQtRdxREEQNun3mKPaW8Y=$MA/csODD3lvy6HfD+XEMAfXUt8BP3zLZZMTxWgyCEBE=",
        ScramFault::SaltEncoding,
    ),
    (
        "$scram-sha-256$1$AA=A$cckgz89wR9B4zK8pCACGw/HQtRdxREEQNun3mKPaW8Y=$MA/csODD3lvy6HfD+XEMAfXUt8BP3zLZZMTxWgyCEBE=",
        ScramFault::SaltEncoding,
    ),
    (
        "$scram-sha-256$1$A===$cckgz89wR9B4zK8pCACGw/HQtRdxREEQNun3mKPaW8Y=$MA/csODD3lvy6HfD+XEMAfXUt8BP3zLZZMTxWgyCEBE=",
        ScramFault::SaltEncoding,
    ),
    (
        "$scram-sha-256$1$YWJjZA==YWJj$cckgz89wR9B4zK8pCACGw/HQtRdxREEQNun3mKPaW8Y=$MA/csODD3lvy6HfD+XEMAfXUt8BP3zLZZMTxWgyCEBE=",
        ScramFault::SaltEncoding,
    ),
    (
        "$scram-sha-256$1$\u{e9}\u{e9}$cckgz89wR9B4zK8pCACGw/HQtRdxREEQNun3mKPaW8Y=$MA/csODD3lvy6HfD+XEMAfXUt8BP3zLZZMTxWgyCEBE=",
        ScramFault::SaltEncoding,
    ),
    (
        "$scram-sha-256$1$YWJjZGVmZ2g=$$MA/csODD3lvy6HfD+XEMAfXUt8BP3zLZZMTxWgyCEBE=",
        ScramFault::StoredKeyLength,
    ),
    (
        "$scram-sha-256$1$YWJjZGVmZ2g=$cckgz89wR9B4zK8pCACGw/HQtRdxREEQNun3mKPaW8Y$MA/csODD3lvy6HfD+XEMAfXUt8BP3zLZZMTxWgyCEBE=",
        ScramFault::StoredKeyLength,
    ),
    (
        "$scram-sha-256$1$YWJjZGVmZ2g=$cckgz89wR9B4zK8pCACGw/HQtRdxREEQNun3mKPaW8Y==$x",
        ScramFault::StoredKeyLength,
    ),
    (
        "$scram-sha-256-raw$1$YWJjZGVmZ2g=$-$-",
        ScramFault::StoredKeyLength,
    ),
    (
        "$scram-sha-256$1$YWJjZGVmZ2g=$cckgz89wR9B4zK8pCACGw/HQtRdxREEQNun3mKPa$MA/csODD3lvy6HfD+XEMAfXUt8BP3zLZZMTxWgyCEBE=",
        ScramFault::StoredKeyLength,
    ),
    (
        "$scram-sha-256$1$YWJjZGVmZ2g=$cckgz89wR9B4zK8pCACGw/HQtRdxREEQNun3mKPaW8Z4$MA/csODD3lvy6HfD+XEMAfXUt8BP3zLZZMTxWgyCEBE=",
        ScramFault::StoredKeyEncoding,
    ),
    (
        "$scram-sha-256$1$YWJjZGVmZ2g=$cckgz89wR9B4zK8pCACGw/HQtRdxREEQNun3mKPaWw==$MA/csODD3lvy6HfD+XEMAfXUt8BP3zLZZMTxWgyCEBE=",
        ScramFault::StoredKeyEncoding,
    ),
    (
        "$scram-sha-256$1$YWJjZGVmZ2g=$cckgz89wR9B4zK8pCACGw/HQtRdxREEQNun3mKPaW8Z=$MA/csODD3lvy6HfD+XEMAfXUt8BP3zLZZMTxWgyCEBE=",
        ScramFault::StoredKeyEncoding,
    ),
    (
        "$scram-sha-256$1$YWJjZGVmZ2g=$-ckgz89wR9B4zK8pCACGw/HQtRdxREEQNun3mKPaW8Y=$x",
        ScramFault::StoredKeyEncoding,
    ),
    (
        "$scram-sha-256$1$YWJjZGVmZ2g=$cckgz89wR9B4zK8pCACG /HQtRdxREEQNun3mKPaW8Y=$MA/csODD3lvy6HfD+XEMAfXUt8BP3zLZZMTxWgyCEBE=",
        ScramFault::StoredKeyEncoding,
    ),
    (
        "$scram-sha-256$1$YWJjZGVmZ2g=$cckgz89wR9B4zK8pCACGw/HQtRdxREEQNun3mKPaW8==$MA/csODD3lvy6HfD+XEMAfXUt8BP3zLZZMTxWgyCEBE=",
        ScramFault::StoredKeyEncoding,
    ),
    (
        "$scram-sha-256$1$YWJjZGVmZ2g=$============================================$MA/csODD3lvy6HfD+XEMAfXUt8BP3zLZZMTxWgyCEBE=",
        ScramFault::StoredKeyEncoding,
    ),
    (
        "$scram-sha-256$1$YWJjZGVmZ2g=$cckgz89wR9B4zK8pCACGw/HQtRdxREEQNun3mKPaW8Y=$",
        ScramFault::ServerKeyLength,
    ),
    (
        "$scram-sha-256-raw$1$YWJjZGVmZ2g=$cckgz89wR9B4zK8pCACGw/HQtRdxREEQNun3mKPaW8Y=$MA/csODD3lvy6HfD+XEMAfXUt8BP3zLZZMTxWgyCEBE==",
        ScramFault::ServerKeyLength,
    ),
    (
        "$scram-sha-256$1$YWJjZGVmZ2g=$cckgz89wR9B4zK8pCACGw/HQtRdxREEQNun3mKPaW8Y=$MA/csODD3lvy6HfD+XEMAfXUt8BP3zLZZMTxWgyCEBE",
        ScramFault::ServerKeyLength,
    ),
    (
        "$scram-sha-256$1$YWJjZGVmZ2g=$cckgz89wR9B4zK8pCACGw/HQtRdxREEQNun3mKPaW8Y=$-",
        ScramFault::ServerKeyLength,
    ),
    (
        "$scram-sha-256$1$YWJjZGVmZ2g=$cckgz89wR9B4zK8pCACGw/HQtRdxREEQNun3mKPaW8Y=$MA/csODD3lvy6HfD+XEMAfXUt8BP3zLZZMTxWgyCEBF4",
        ScramFault::ServerKeyEncoding,
    ),
    (
        "$scram-sha-256$1$YWJjZGVmZ2g=$cckgz89wR9B4zK8pCACGw/HQtRdxREEQNun3mKPaW8Y=$MA/csODD3lvy6HfD+XEMAfXUt8BP3zLZZMTxWgyCEA==",
        ScramFault::ServerKeyEncoding,
    ),
    (
        "$scram-sha-256$1$YWJjZGVmZ2g=$cckgz89wR9B4zK8pCACGw/HQtRdxREEQNun3mKPaW8Y=$MA/csODD3lvy6HfD+XEMAfXUt8BP3zLZZMTxWgyCEBF=",
        ScramFault::ServerKeyEncoding,
    ),
    (
        "$scram-sha-256$1$YWJjZGVmZ2g=$cckgz89wR9B4zK8pCACGw/HQtRdxREEQNun3mKPaW8Y=$MA/csODD3lvy6HfD+XEMAfXUt8BP3zLZZMTxWgyCEBE-",
        ScramFault::ServerKeyEncoding,
    ),
    (
        "$scram-sha-256$1$YWJjZGVmZ2g=$cckgz89wR9B4zK8pCACGw/HQtRdxREEQNun3mKPaW8Y=$_A/csODD3lvy6HfD+XEMAfXUt8BP3zLZZMTxWgyCEBE=",
        ScramFault::ServerKeyEncoding,
    ),
    (
        "$scram-sha-256$1$YWJjZGVmZ2g=$cckgz89wR9B4zK8pCACGw/HQtRdxREEQNun3mKPaW8Y=$MA/csODD3lvy6HfD+XEMAfXUt8BP3zLZZMTxWgyCEBEA",
        ScramFault::ServerKeyEncoding,
    ),
];

// Whether a text has this fault by each call, whatever the password, with no more counted than a fault may.
fn is_fault(stored: &str, fault: ScramFault) -> bool {
    let mut counts = Counts::new();
    scram_check_counted(b"", stored, &mut counts) == Err(fault)
        && counts.looks() <= 88
        && counts.sames() <= 8
        && scram_check(b"a\0b\xff", stored) == Err(fault)
        && text_cost(stored) == Err(fault)
}

#[test]
fn faults(rt: HostRuntime) {
    for (stored, fault) in FAULTS {
        assert!(rt; is_fault(stored, *fault), "{stored}");
    }
}

// 2^32 - 1 rounds would take hours, so nothing was hashed.
#[test]
fn rounds_without_a_hash(rt: HostRuntime) {
    assert!(rt;
        text_cost(
            "$scram-sha-256$4294967295$YWJjZGVmZ2g=$cckgz89wR9B4zK8pCACGw/HQtRdxREEQNun3mKPaW8Y=$MA/csODD3lvy6HfD+XEMAfXUt8BP3zLZZMTxWgyCEBE="
        ) == Ok(4_294_967_295)
    );
    assert!(rt;
        text_cost(
            "$scram-sha-256$480000$YWJjZGVmZ2g=$cckgz89wR9B4zK8pCACGw/HQtRdxREEQNun3mKPaW8Y=$MA/csODD3lvy6HfD+XEMAfXUt8BP3zLZZMTxWgyCEBE="
        ) == Ok(480_000)
    );
}

#[test]
fn laws_stand() {
    laws::one_text();
    laws::verdict_where_cost();
    laws::verdict_where_left();
    laws::matches_exactly();
}
