//! Texts of each scheme, judged; users, rows in each form, and how many of each.

use line_io::{MemorySink, MemorySource};
use shadow_survey::{
    Format, Judgement, LeastCosts, RECOMMENDED_LEAST, SurveyLines, UnsupportedForm, Weakness,
    judged, run_survey,
};
use std::test::Fail;

const LEAST: LeastCosts = LeastCosts {
    sha256_rounds: 5_000,
    sha512_rounds: 4_999,
    bcrypt_cost: 5,
    yescrypt_memory: 1_024,
    scrypt_memory: 16,
    scrypt_work: 17,
    pbkdf2_sha256_rounds: 1_000,
    pbkdf2_sha512_rounds: 999,
    argon2_memory: 65,
    argon2_work: 128,
};

// Texts of other programs, as any_check's tests have them, with their row behind the user.
const ROWS: [(&str, &str); 46] = [
    (
        "$1$abcdefgh$cHJi5PXp/ki/ktXzqlk6I1",
        "md5-crypt\t-\tweak: md5-crypt",
    ),
    (
        "$apr1$abcdefgh$h9FWgUz3n9YxylKLlR5SQ/",
        "md5-crypt\t-\tweak: md5-crypt",
    ),
    (
        "$5$abcdefgh$gruCpC7VkOTspMQTTSAR8mtlO9Upms.fwqE5y16JVM.",
        "sha256-crypt\trounds=5000\tok",
    ),
    (
        "$5$rounds=1500$abcdefgh$qXUmNmbLEOn5YPWvewYoPCAAHp5vzLn73xcpCUC256C",
        "sha256-crypt\trounds=1500\tweak: 1500 rounds",
    ),
    (
        "$6$abcdefgh$ltjgWl6579NluT/Vi1nwEvcil.G5Nbc4NiXZaNGStk8PSwGfQv72N2CKPPrVACtLtip/cZ/1GM/O6IND4WQhG.",
        "sha512-crypt\trounds=5000\tok",
    ),
    ("$6$abcdefgh$x", "-\t-\tinvalid"),
    ("$1$abcdefgh$cHJi5PXp/ki/ktXzqlk6I", "-\t-\tinvalid"),
    ("$1$abcdefghi$cHJi5PXp/ki/ktXzqlk6I1", "-\t-\tinvalid"),
    ("$apr1$abcdefgh", "-\t-\tinvalid"),
    (
        "$2b$04$abcdefghijklmnopqrstuu2r9OfJnfCsdneAXAGHnS4UpFFP8WIrW",
        "bcrypt\tcost=4\tweak: cost 4",
    ),
    (
        "$2y$05$abcdefghijklmnopqrstuuOQiyCxlgf/oeuTqixKmWdcYUh4Hjl0a",
        "bcrypt\tcost=5\tok",
    ),
    (
        "$2b$03$abcdefghijklmnopqrstuu2r9OfJnfCsdneAXAGHnS4UpFFP8WIrW",
        "-\t-\tinvalid",
    ),
    (
        "$bcrypt-sha256$2b,4$abcdefghijklmnopqrstuu$N9tMz1lMx9RK4tmPpgRXWaagQQdZIOO",
        "bcrypt-digest\tcost=4\tweak: cost 4",
    ),
    (
        "$bcrypt-sha256$v=2,t=2b,r=5$rQ4YSmKXcMgu5A9G67oqZe$S9cUb0ixwFd041WWlme5LZJoDd3KoHC",
        "bcrypt-digest\tcost=5\tok",
    ),
    ("$wp$2y$10$x", "-\t-\tinvalid"),
    (
        "$sha1$19$abcdefgh$nl4bYNUkvp1kTppWm6kb5cqPQqNG",
        "sha1-crypt\trounds=19\tweak: sha1-crypt",
    ),
    (
        "$sha1$4294967295$a$nl4bYNUkvp1kTppWm6kb5cqPQqNG",
        "sha1-crypt\trounds=4294967295\tweak: sha1-crypt",
    ),
    (
        "$sha1$4294967296$a$nl4bYNUkvp1kTppWm6kb5cqPQqNG",
        "-\t-\tinvalid",
    ),
    (
        "$scram-sha-256$999$c2FsdHNhbHRzYWx0$yKryWWaEJIQZh+JLbGHI0L6CiAe9Z/A045jMaYLvY5Q=$m68IZJjNEbv8HGR356PYAHysNh90ZvhvCDdy6qKIKYw=",
        "scram-sha-256\trounds=999\tweak: 999 rounds",
    ),
    (
        "$scram-sha-256-raw$1000$c2FsdHNhbHRzYWx0$RdX4ARLvYgtG49yrH5Ad+1cSP6sX3ne7wcvyE05dWd8=$nqZeGYnz3lpZ+Z9cF+fW31+zlAed1+TSM+lgpSCnf7Q=",
        "scram-sha-256\trounds=1000\tok",
    ),
    (
        "$scram-sha-256$4294967296$c2FsdHNhbHRzYWx0$yKryWWaEJIQZh+JLbGHI0L6CiAe9Z/A045jMaYLvY5Q=$m68IZJjNEbv8HGR356PYAHysNh90ZvhvCDdy6qKIKYw=",
        "-\t-\tinvalid",
    ),
    (
        "$P$63CSgRZlssLJbqxzpCXYPhDoROG16t0",
        "phpass\tcost=8\tweak: phpass",
    ),
    (
        "$H$5abcdefghRQTwXLGkACWdXkqlmTP.k1",
        "phpass\tcost=7\tweak: phpass",
    ),
    ("$P$43CSgRZlssLJbqxzpCXYPhDoROG16t0", "-\t-\tinvalid"),
    (
        "$ssha$kYts+A==$N/O7ZPYFWQ9QtdpxAglBt23rONc=",
        "salted-digest\t-\tweak: salted-digest",
    ),
    (
        "$ssha$kYts+A==$N/O7ZPYFWQ9QtdpxAglBt23rONd=",
        "-\t-\tinvalid",
    ),
    (
        "$mysql$A$005*091F0C4838086B4A107B1D52524C7B084B4C3407*3576313333324C494456316E3243426A5A594F706E4B477263396B702F73426A4145764F6B566C64565030",
        "mysql-sha2\trounds=5000\tok",
    ),
    (
        "$mysql$A$FFF*091F0C4838086B4A107B1D52524C7B084B4C3407*3576313333324C494456316E3243426A5A594F706E4B477263396B702F73426A4145764F6B566C64565030",
        "mysql-sha2\trounds=4095000\tok",
    ),
    (
        "$mysql$A$004*091F0C4838086B4A107B1D52524C7B084B4C3407*3576313333324C494456316E3243426A5A594F706E4B477263396B702F73426A4145764F6B566C64565030",
        "-\t-\tinvalid",
    ),
    (
        "$scrypt$ln=4,r=8,p=1$c2FsdHNhbHRzYWx0$09/untC+3Bg44eiJQ8bqhTXgE2ali+ykLaojkJZlF9U",
        "scrypt\tln=4,r=8,p=1\tweak: p=1 over 16 KiB",
    ),
    ("$scrypt$ln=4,r=8,p=1$c2FsdHNhbHRzYWx0", "-\t-\tinvalid"),
    (
        "$pbkdf2-sha256$i=1000,l=32$c2FsdHNhbHRzYWx0$sVaWem31qy3rw+Ldi3plA/XzhMSNi9/XHnnD1Ytj05o",
        "pbkdf2-sha256\trounds=1000\tok",
    ),
    (
        "$pbkdf2-sha512$i=999$c2FsdHNhbHRzYWx0$GK6ZfhTx3pI28IQ6HYQzaUek5XduggVQ0zhLSF6WB1ROBlCW2ybd4hR7tgTVg/2i//vv5K7hcJGgBedoUEO6ag",
        "pbkdf2-sha512\trounds=999\tok",
    ),
    (
        "$pbkdf2-sha512$i=998$c2FsdHNhbHRzYWx0$KGIXG/2o3jbqSZNSZvJ6I0r4Q8AhB9qftXcOZhJNT3mp5TBLniPbd+oMu9Yo/NZZyvx2xM6wz80XIb2DRB0Geg",
        "pbkdf2-sha512\trounds=998\tweak: 998 rounds",
    ),
    (
        "$pbkdf2-sha1$i=998$c2FsdHNhbHRzYWx0$dfthYyTIsPBB/GS86Ihv/tqCRr0",
        "pbkdf2-sha1\trounds=998\tweak: pbkdf2-sha1",
    ),
    (
        "$argon2id$v=19$m=64,t=1,p=1$c2FsdHNhbHRzYWx0$Sm3MnLdCFk0Af+croKgebRoqqmhbKd88iiW3yUOXn78",
        "argon2id\tm=64,t=1,p=1\tweak: 64 KiB",
    ),
    (
        "$argon2i$v=19$m=64,t=2,p=2$c2FsdHNhbHRzYWx0$vtdpD5eGGsEQdYh52JSgUbWdj2vdH1FR/Ncvk1mmMU8",
        "argon2i\tm=64,t=2,p=2\tweak: 64 KiB",
    ),
    (
        "$argon2d$v=19$m=128,t=1,p=1$c2FsdHNhbHRzYWx0$cnmEAHaXnZyNK8al32lcZA",
        "argon2d\tm=128,t=1,p=1\tok",
    ),
    (
        "$argon2id$m=64,t=1,p=1$c2FsdHNhbHRzYWx0$Sm3MnLdCFk0Af+croKgebRoqqmhbKd88iiW3yUOXn78",
        "-\t-\tinvalid",
    ),
    (
        "$y$j75$0123456789ab$kb1fsIrDP1wOa4Q3gNpxZkfwQ3ce8kmPbnemuN65IT2",
        "yescrypt\tln=10,r=8,t=0\tok",
    ),
    ("$y$j75$0123456789ab", "-\t-\tinvalid"),
    (
        "$7$4/....0....SodiumChloride$V4S.p0ArbLXh9bvI9g1ReO/qmFMyvEX4e98XynaDdN9",
        "scrypt-crypt\tln=6,r=1,p=2\tweak: 8 KiB",
    ),
    (
        "$3$$8846f7eaee8fb117ad06bdd830b7586c",
        "-\t-\tunsupported: nt",
    ),
    ("x", "-\t-\tunsupported: clear text or unknown"),
    ("!$6$abcdefgh$x", "-\t-\tlocked"),
    ("", "-\t-\tempty"),
];

#[test]
fn a_row_for_each_text(rt: HostRuntime) -> Result<(), Fail> {
    for (text, row) in ROWS {
        let input = format!(in rt.alloc(); "ann:{text}:19000:0\n")?;
        let wanted = format!(in rt.alloc(); "ann\t{row}\n\n")?;
        let mut room = [0; 256];
        let mut sink = MemorySink::new(&mut room, 64, &[]);
        let mut source = MemorySource::new(input.as_bytes(), 64, &[]);
        let mut lines = SurveyLines::new(LEAST, Format::Tabs);
        let status = run_survey(&mut lines, &mut source, &mut sink, 1 << 20);
        assert!(rt; sink.bytes().starts_with(wanted.as_bytes()), "{text}");
        let good = row.ends_with("ok") || row.ends_with("locked");
        assert!(rt; status == u8::from(!good), "{text}");
    }
    Ok(())
}

// The costs of a text by OWASP's settings, and half of each, with what of it is weak.
const EQUAL: [(&str, &str, Weakness); 18] = [
    (
        "$scrypt$ln=17,r=8,p=1$",
        "$scrypt$ln=16,r=8,p=1$",
        Weakness::Work,
    ),
    (
        "$scrypt$ln=16,r=8,p=2$",
        "$scrypt$ln=16,r=8,p=1$",
        Weakness::Work,
    ),
    (
        "$scrypt$ln=15,r=8,p=3$",
        "$scrypt$ln=15,r=4,p=3$",
        Weakness::Work,
    ),
    (
        "$scrypt$ln=14,r=8,p=5$",
        "$scrypt$ln=13,r=8,p=5$",
        Weakness::Work,
    ),
    (
        "$scrypt$ln=13,r=8,p=10$",
        "$scrypt$ln=12,r=8,p=10$",
        Weakness::Memory,
    ),
    (
        "$argon2id$v=19$m=47104,t=1,p=1$",
        "$argon2id$v=19$m=23552,t=1,p=1$",
        Weakness::Work,
    ),
    (
        "$argon2id$v=19$m=19456,t=2,p=1$",
        "$argon2id$v=19$m=19456,t=1,p=1$",
        Weakness::Work,
    ),
    (
        "$argon2id$v=19$m=12288,t=3,p=1$",
        "$argon2id$v=19$m=6144,t=3,p=1$",
        Weakness::Memory,
    ),
    (
        "$argon2i$v=19$m=9216,t=4,p=1$",
        "$argon2i$v=19$m=9216,t=2,p=1$",
        Weakness::Work,
    ),
    (
        "$argon2d$v=19$m=7168,t=5,p=1$",
        "$argon2d$v=19$m=3584,t=10,p=1$",
        Weakness::Memory,
    ),
    (
        "$pbkdf2-sha256$i=600000,l=32$",
        "$pbkdf2-sha256$i=599999,l=32$",
        Weakness::Rounds,
    ),
    (
        "$pbkdf2-sha512$i=210000,l=32$",
        "$pbkdf2-sha512$i=209999,l=32$",
        Weakness::Rounds,
    ),
    ("$7$F6..../....", "$7$E6..../....", Weakness::Work),
    ("$7$B6....8....", "$7$A6....8....", Weakness::Memory),
    ("$y$j9T$", "$y$j8T$", Weakness::Memory),
    ("$5$rounds=535000$", "$5$rounds=534999$", Weakness::Rounds),
    ("$6$rounds=656000$", "$6$rounds=655999$", Weakness::Rounds),
    ("$2b$10$", "$2b$09$", Weakness::Cost),
];

// A salt and a hash for a text of these costs.
fn tail_of(costs: &str) -> &'static str {
    if costs.starts_with("$7$") {
        "SodiumChloride$kb1fsIrDP1wOa4Q3gNpxZkfwQ3ce8kmPbnemuN65IT2"
    } else if costs.starts_with("$y$") {
        "0123456789ab$kb1fsIrDP1wOa4Q3gNpxZkfwQ3ce8kmPbnemuN65IT2"
    } else if costs.starts_with("$5$") {
        "abcdefgh$gruCpC7VkOTspMQTTSAR8mtlO9Upms.fwqE5y16JVM."
    } else if costs.starts_with("$6$") {
        "abcdefgh$ltjgWl6579NluT/Vi1nwEvcil.G5Nbc4NiXZaNGStk8PSwGfQv72N2CKPPrVACtLtip/cZ/1GM/O6IND4WQhG."
    } else if costs.starts_with("$2b$") {
        "abcdefghijklmnopqrstuu2r9OfJnfCsdneAXAGHnS4UpFFP8WIrW"
    } else {
        "c2FsdHNhbHRzYWx0$09/untC+3Bg44eiJQ8bqhTXgE2ali+ykLaojkJZlF9U"
    }
}

// The judgement on a text of these costs.
fn judged_costs(rt: &HostRuntime, costs: &str) -> Result<Judgement, Fail> {
    let tail = tail_of(costs);
    let text = format!(in rt.alloc(); "{costs}{tail}")?;
    Ok(judged(&RECOMMENDED_LEAST, text.as_bytes()))
}

#[test]
fn equal_settings_and_half_of_them(rt: HostRuntime) -> Result<(), Fail> {
    for (enough, half, weakness) in EQUAL {
        let judgement = judged_costs(&rt, enough)?;
        assert!(rt; matches!(judgement, Judgement::Strong(_)), "{enough}");
        match judged_costs(&rt, half)? {
            Judgement::Weak(_, what) => assert!(rt; what == weakness, "{half}: {what:?}"),
            other => panic!(rt; "{half}: {other:?}"),
        }
    }
    Ok(())
}

// Costs, and what is written of them.
const WORDS: [(&str, &str); 5] = [
    (
        "$scrypt$ln=15,r=4,p=3$c2FsdHNhbHRzYWx0$09/untC+3Bg44eiJQ8bqhTXgE2ali+ykLaojkJZlF9U",
        "\"scrypt\",\"cost\":{\"ln\":15,\"r\":4,\"p\":3},\"judgement\":\"weak: p=3 over 16384 KiB\",\"weak\":true}\n",
    ),
    (
        "$argon2id$v=19$m=9216,t=2,p=3$c2FsdHNhbHRzYWx0$09/untC+3Bg44eiJQ8bqhTXgE2ali+ykLaojkJZlF9U",
        "\"argon2id\",\"cost\":{\"m\":9216,\"t\":2,\"p\":3},\"judgement\":\"weak: t=2 over 9216 KiB\",\"weak\":true}\n",
    ),
    (
        "$y$j75$0123456789ab$kb1fsIrDP1wOa4Q3gNpxZkfwQ3ce8kmPbnemuN65IT2",
        "\"yescrypt\",\"cost\":{\"ln\":10,\"r\":8,\"t\":0},\"judgement\":\"weak: 1024 KiB\",\"weak\":true}\n",
    ),
    (
        "$2b$09$abcdefghijklmnopqrstuu2r9OfJnfCsdneAXAGHnS4UpFFP8WIrW",
        "\"bcrypt\",\"cost\":{\"cost\":9},\"judgement\":\"weak: cost 9\",\"weak\":true}\n",
    ),
    (
        "$6$rounds=656000$abcdefgh$ltjgWl6579NluT/Vi1nwEvcil.G5Nbc4NiXZaNGStk8PSwGfQv72N2CKPPrVACtLtip/cZ/1GM/O6IND4WQhG.",
        "\"sha512-crypt\",\"cost\":{\"rounds\":656000},\"judgement\":\"ok\",\"weak\":false}\n",
    ),
];

#[test]
fn numbers_as_numbers(rt: HostRuntime) -> Result<(), Fail> {
    for (text, row) in WORDS {
        let input = format!(in rt.alloc(); "ann:{text}\n")?;
        let wanted = format!(in rt.alloc(); "{{\"user\":\"ann\",\"scheme\":{row}")?;
        let mut room = [0; 256];
        let mut sink = MemorySink::new(&mut room, 64, &[]);
        let mut source = MemorySource::new(input.as_bytes(), 64, &[]);
        let mut lines = SurveyLines::new(RECOMMENDED_LEAST, Format::Json);
        let status = run_survey(&mut lines, &mut source, &mut sink, 1 << 20);
        assert!(rt; sink.bytes() == wanted.as_bytes(), "{text}");
        assert!(rt; status == u8::from(!row.contains("\"ok\"")), "{text}");
    }
    Ok(())
}

// Texts of `secret` that libxcrypt 4.4.33 (`crypt`) and passlib 1.7.4 make, and shapes of those that neither makes, with their
// form.
const FORMS: [(&str, UnsupportedForm, &str); 28] = [
    (
        "*14E65567ABDB5135D0CFD9A70B3032C179A49EE7",
        UnsupportedForm::MysqlNative,
        "mysql_native_password",
    ),
    ("abNANd1rDfiNc", UnsupportedForm::Descrypt, "descrypt"),
    ("q7R9hlXwfgnuE", UnsupportedForm::Descrypt, "descrypt"),
    (
        "unsupported-des-crypt",
        UnsupportedForm::Descrypt,
        "descrypt",
    ),
    (
        "_J9..saltLXKE4peqNCg",
        UnsupportedForm::Bsdicrypt,
        "bsdicrypt",
    ),
    (
        "_J9..saltLXKE4peqNC",
        UnsupportedForm::Unknown,
        "clear text or unknown",
    ),
    (
        "$3$$878d8014606cda29677a44efa1353fc7",
        UnsupportedForm::Nt,
        "nt",
    ),
    (
        "$md5,rounds=5000$salt$$lkvEZR4zhmpUWLWgqfd7a0",
        UnsupportedForm::Sunmd5,
        "sunmd5",
    ),
    (
        "$gy$j75$0123456789ab$mC3YjagUyvzAJ5CA/Fp0nFqQHGoO82aZKIXoVvjQaT9",
        UnsupportedForm::GostYescrypt,
        "gost-yescrypt",
    ),
    ("$sm3$salt$x", UnsupportedForm::Sm3crypt, "sm3crypt"),
    (
        "$sm3y$j9T$salt$x",
        UnsupportedForm::Sm3Yescrypt,
        "sm3-yescrypt",
    ),
    (
        "$pbkdf2$20$cq61lvJey1kLodTam7NWCg$x37x/kfK1wss1PY/3KUJIAzZXi8",
        UnsupportedForm::PasslibPbkdf2,
        "passlib $pbkdf2$",
    ),
    (
        "$scram$20$wphTqrV27j0n5Lz3$sha-1=1yYoMMMw366",
        UnsupportedForm::Scram,
        "scram",
    ),
    ("unsupported-scram", UnsupportedForm::Scram, "scram"),
    (
        "{SHA}5en6G6MezRroT3XKqkdPOmY/BfQ=",
        UnsupportedForm::LdapSha,
        "ldap {SHA}",
    ),
    (
        "{ssha}DffeBf7vCTlc7hCF9FEi6uR9CVjxvpdS",
        UnsupportedForm::LdapSsha,
        "ldap {SSHA}",
    ),
    (
        "{MD5}Xr4ilOzQ4PCOq3aQ0qbuaQ==",
        UnsupportedForm::LdapMd5,
        "ldap {MD5}",
    ),
    (
        "{SMD5}3SU+TmEkJfPDUHOlzzm3DYjR+p8=",
        UnsupportedForm::LdapSmd5,
        "ldap {SMD5}",
    ),
    (
        "{SSHA256}Md4WXrn6ko/L5T3NTH75ms2oEuxmxihl1pT424srjlyyVsq5N6bUOg==",
        UnsupportedForm::Ldap,
        "ldap",
    ),
    ("unsupported-sha1", UnsupportedForm::Sha1, "sha1"),
    ("unsupported-md5", UnsupportedForm::Md5, "md5"),
    ("unsupported-sha2", UnsupportedForm::Sha2, "sha2"),
    (
        "unsupported-cleartext",
        UnsupportedForm::ClearText,
        "clear text",
    ),
    (
        "unsupported-scheme",
        UnsupportedForm::Another,
        "another scheme",
    ),
    (
        "foreign-rounds",
        UnsupportedForm::Faulty,
        "foreign text with a fault",
    ),
    ("secret", UnsupportedForm::Unknown, "clear text or unknown"),
    (
        "abNANd1rDfiN=",
        UnsupportedForm::Unknown,
        "clear text or unknown",
    ),
    ("$9$x", UnsupportedForm::Unknown, "clear text or unknown"),
];

#[test]
fn unsupported_forms(rt: HostRuntime) -> Result<(), Fail> {
    for (text, form, name) in FORMS {
        let judgement = judged(&RECOMMENDED_LEAST, text.as_bytes());
        assert!(rt;
            judgement == Judgement::Unsupported(form),
            "{text}: {judgement:?}"
        );
        let input = format!(in rt.alloc(); "ann:{text}:19000\nbob:!\n")?;
        let wanted = format!(in rt.alloc();
            "ann\t-\t-\tunsupported: {name}\nbob\t-\t-\tlocked\n\n1\tunsupported: {name}\n1\tlocked\n"
        )?;
        let mut room = [0; 256];
        let mut sink = MemorySink::new(&mut room, 64, &[]);
        let mut source = MemorySource::new(input.as_bytes(), 64, &[]);
        let mut lines = SurveyLines::new(RECOMMENDED_LEAST, Format::Tabs);
        let status = run_survey(&mut lines, &mut source, &mut sink, 1 << 20);
        assert!(rt; sink.bytes() == wanted.as_bytes(), "{text}");
        assert!(rt; status == 1, "{text}");
    }
    Ok(())
}

// Users, as they are shown in each form: what a spreadsheet would run, and what a terminal obeys.
const USERS: [(&str, &str, &str, &str); 9] = [
    ("ann", "ann", "ann", "ann"),
    ("=1", "=1", "'=1", "=1"),
    ("+1", "+1", "'+1", "+1"),
    ("-1", "-1", "'-1", "-1"),
    ("@a", "@a", "'@a", "@a"),
    ("a=1", "a=1", "a=1", "a=1"),
    ("\r=\x1b[2J", "?=?[2J", "?=?[2J", "\\u000d=\\u001b[2J"),
    (
        "\u{80}\u{9f}\u{a0}\u{c0}\x7f",
        "??\u{a0}\u{c0}?",
        "??\u{a0}\u{c0}?",
        "\\u0080\\u009f\u{a0}\u{c0}\\u007f",
    ),
    ("\"\\", "\"\\", "\"\"\\", "\\\"\\\\"),
];

// Whether this is written for one locked user.
fn is_shown(rt: &HostRuntime, format: Format, user: &str, wanted: &str) -> Result<bool, Fail> {
    let input = format!(in rt.alloc(); "{user}:!\n")?;
    let mut room = [0; 128];
    let mut sink = MemorySink::new(&mut room, 64, &[]);
    let mut source = MemorySource::new(input.as_bytes(), 64, &[]);
    let mut lines = SurveyLines::new(RECOMMENDED_LEAST, format);
    let status = run_survey(&mut lines, &mut source, &mut sink, 1 << 20);
    Ok(status == 0 && sink.bytes() == wanted.as_bytes())
}

#[test]
fn users_are_harmless(rt: HostRuntime) -> Result<(), Fail> {
    for (user, tabs, csv, json) in USERS {
        let row = format!(in rt.alloc(); "{tabs}\t-\t-\tlocked\n\n1\tlocked\n")?;
        assert!(rt; is_shown(&rt, Format::Tabs, user, row.as_str())?, "{tabs}");
        let row = format!(in rt.alloc(); "user,scheme,cost,judgement\n\"{csv}\",,\"\",locked\n")?;
        assert!(rt; is_shown(&rt, Format::Csv, user, row.as_str())?, "{csv}");
        let row = format!(in rt.alloc();
            "{{\"user\":\"{json}\",\"scheme\":null,\"cost\":null,\"judgement\":\"locked\",\"weak\":false}}\n"
        )?;
        assert!(rt; is_shown(&rt, Format::Json, user, row.as_str())?, "{json}");
    }
    Ok(())
}

#[test]
fn no_lines(rt: HostRuntime) {
    for (format, wanted) in [
        (Format::Tabs, b"\n".as_slice()),
        (Format::Csv, b"user,scheme,cost,judgement\n".as_slice()),
        (Format::Json, b"".as_slice()),
    ] {
        let mut room = [0; 64];
        let mut sink = MemorySink::new(&mut room, 64, &[]);
        let mut source = MemorySource::new(b"", 64, &[]);
        let mut lines = SurveyLines::new(LEAST, format);
        let status = run_survey(&mut lines, &mut source, &mut sink, 1 << 20);
        assert!(rt; sink.bytes() == wanted, "{format:?}");
        assert!(rt; status == 0, "{format:?}");
    }
}

// A user that a spreadsheet would run, others with quotation marks and control characters, of which U+009B is two bytes.
const LINES: &[u8] =
    b"ann:$1$abcdefgh$cHJi5PXp/ki/ktXzqlk6I1\n=1+2:!\nbob:*:1\ncleo\nd\tan:x\ne\"f\\:\n\x01\x7f\xc2\x9b-\xc2\xa0:$9$x\nfay:$2y$05$abcdefghijklmnopqrstuuOQiyCxlgf/oeuTqixKmWdcYUh4Hjl0a\n";

const TABS: &[u8] =
    b"ann\tmd5-crypt\t-\tweak: md5-crypt\n=1+2\t-\t-\tlocked\nbob\t-\t-\tlocked\n\t-\t-\tbadline\n\t-\t-\tbadline\ne\"f\\\t-\t-\tempty\n???-\xc2\xa0\t-\t-\tunsupported: clear text or unknown\nfay\tbcrypt\tcost=5\tok\n\n1\tmd5-crypt weak\n1\tbcrypt ok\n1\tunsupported: clear text or unknown\n1\tempty\n2\tlocked\n2\tbadline\n";

const CSV: &[u8] =
    b"user,scheme,cost,judgement\n\"ann\",md5-crypt,\"\",weak: md5-crypt\n\"'=1+2\",,\"\",locked\n\"bob\",,\"\",locked\n\"\",,\"\",badline\n\"\",,\"\",badline\n\"e\"\"f\\\",,\"\",empty\n\"???-\xc2\xa0\",,\"\",unsupported: clear text or unknown\n\"fay\",bcrypt,\"cost=5\",ok\n";

const JSON: &[u8] =
    b"{\"user\":\"ann\",\"scheme\":\"md5-crypt\",\"cost\":null,\"judgement\":\"weak: md5-crypt\",\"weak\":true}\n{\"user\":\"=1+2\",\"scheme\":null,\"cost\":null,\"judgement\":\"locked\",\"weak\":false}\n{\"user\":\"bob\",\"scheme\":null,\"cost\":null,\"judgement\":\"locked\",\"weak\":false}\n{\"user\":\"\",\"scheme\":null,\"cost\":null,\"judgement\":\"badline\",\"weak\":false}\n{\"user\":\"\",\"scheme\":null,\"cost\":null,\"judgement\":\"badline\",\"weak\":false}\n{\"user\":\"e\\\"f\\\\\",\"scheme\":null,\"cost\":null,\"judgement\":\"empty\",\"weak\":false}\n{\"user\":\"\\u0001\\u007f\\u009b-\xc2\xa0\",\"scheme\":null,\"cost\":null,\"judgement\":\"unsupported: clear text or unknown\",\"weak\":false}\n{\"user\":\"fay\",\"scheme\":\"bcrypt\",\"cost\":{\"cost\":5},\"judgement\":\"ok\",\"weak\":false}\n";

#[test]
fn rows_in_each_form(rt: HostRuntime) {
    for (format, wanted) in [
        (Format::Tabs, TABS),
        (Format::Csv, CSV),
        (Format::Json, JSON),
    ] {
        let mut room = [0; 2048];
        let mut sink = MemorySink::new(&mut room, 100, &[]);
        let mut source = MemorySource::new(LINES, 7, &[]);
        let mut lines = SurveyLines::new(LEAST, format);
        let status = run_survey(&mut lines, &mut source, &mut sink, 1 << 20);
        assert!(rt; sink.bytes() == wanted, "{format:?}");
        assert!(rt; status == 1, "{format:?}");
    }
}

#[test]
fn bytes_that_are_no_text(rt: HostRuntime) {
    assert!(rt; judged(&LEAST, b"\xff$6$x") == Judgement::Invalid);
    assert!(rt; judged(&LEAST, b"*\xff") == Judgement::Locked);
}

#[test]
fn a_user_that_is_no_text(rt: HostRuntime) {
    let mut room = [0; 64];
    let mut sink = MemorySink::new(&mut room, 64, &[]);
    let mut source = MemorySource::new(b"\xff:!\n", 64, &[]);
    let mut lines = SurveyLines::new(LEAST, Format::Csv);
    let status = run_survey(&mut lines, &mut source, &mut sink, 1 << 20);
    assert!(rt; sink.bytes() == b"user,scheme,cost,judgement\n\"\",,\"\",badline\n".as_slice());
    assert!(rt; status == 1);
}

// The read that fails, the write that fails, the bound and the status.
const FAULTS: [(&[u64], &[u64], u64, u8); 3] = [
    (&[0], &[], 1 << 20, 3),
    (&[], &[0], 1 << 20, 4),
    (&[], &[], 5, 6),
];

#[test]
fn faults_of_devices(rt: HostRuntime) {
    for (bad_reads, bad_writes, max, status) in FAULTS {
        assert!(rt; max <= 1 << 20);
        let mut lines = SurveyLines::new(LEAST, Format::Csv);
        let mut room = [0; 64];
        let mut source = MemorySource::new(b"ann:!\n", 64, bad_reads);
        let mut sink = MemorySink::new(&mut room, 64, bad_writes);
        let got = run_survey(&mut lines, &mut source, &mut sink, max);
        assert!(rt; got == status, "{status}: {got}");
    }
}
