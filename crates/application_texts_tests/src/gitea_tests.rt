//! Texts of Gitea and Forgejo: the keys are those of Python's hashlib, and the texts of bcrypt those of libxcrypt.

use crate::fault_tests::fault_of;
use crate::tests::is_read;
use application_texts::{Application, Maker};
use foreign_text::{ForeignFault, Unread};

// Texts, and the stored texts for them.
const READ: &[(&str, &str)] = &[
    (
        "pbkdf2:6117f8e09026f24e98cc28692df6eda59e9c4896bdfb2bcbfaa825483c42dbdba8ab4c20e6818effcd8ba43243432546835c:c3j27xdcg2",
        "$pbkdf2-sha256$i=10000$YzNqMjd4ZGNnMg$YRf44JAm8k6YzChpLfbtpZ6cSJa9+yvL+qglSDxC29uoq0wg5oGO/82LpDJDQyVGg1w",
    ),
    (
        "pbkdf2_v1:b76fde9fdf779b1e5594aa04fbf313b293ef6d62d2bf5dacda372df9b4f0df33adbd6eec443e27424a84c96d50bab4f04470:615ef35f30e49b482e15cae75007201e",
        "$pbkdf2-sha256$i=10000$YV7zXzDkm0guFcrnUAcgHg$t2/en993mx5VlKoE+/MTspPvbWLSv12s2jct+bTw3zOtvW7sRD4nQkqEyW1QurTwRHA",
    ),
    (
        "pbkdf2_v2:6c26b78c8d2d6d63828a507294b7dabbb6ee6dbee01f3777f2bc00a9144965dc7db9bc8d6432c5ee4427d9c4ef937bd8a181:CM4PmBxdUc",
        "$pbkdf2-sha256$i=50000$Q000UG1CeGRVYw$bCa3jI0tbWOCilBylLfau7bubb7gHzd38rwAqRRJZdx9ubyNZDLF7kQn2cTvk3vYoYE",
    ),
    (
        "pbkdf2_hi:7b648a8969e7d5323abf8d9bdd911aa9d31b7f4edcad3b9b8f26d3f62ef28b61a32d9665746f390d885dbee90306ba1f59f0:647796ff022bea8ed02a82a175930f2337cd3794c52208006d6b1af0c0cbd625",
        "$pbkdf2-sha256$i=320000$ZHeW/wIr6o7QKoKhdZMPIzfNN5TFIggAbWsa8MDL1iU$e2SKiWnn1TI6v42b3ZEaqdMbf07crTubjybT9i7yi2GjLZZldG85DYhdvukDBrofWfA",
    ),
    (
        "pbkdf2$10000$50:640294d80fb7f50329c1e5eb8c365bffef461000f4df522ad69374e10cc691c913982988df76882098337e28f0c1b32c3de6:koMxrRVFTV",
        "$pbkdf2-sha256$i=10000$a29NeHJSVkZUVg$ZAKU2A+39QMpweXrjDZb/+9GEAD031Iq1pN04QzGkckTmCmI33aIIJgzfijwwbMsPeY",
    ),
    (
        "pbkdf2$50000$50:9415c6b579ad27268035aaaea59aece0c41ae38f9e859a59fe10159ddfe5f7ac5f87cd212510a75a4de583dd2021173fb1dd:07d13c447e33051eeef95a60e56143d6",
        "$pbkdf2-sha256$i=50000$B9E8RH4zBR7u+Vpg5WFD1g$lBXGtXmtJyaANaqupZrs4MQa44+ehZpZ/hAVnd/l96xfh80hJRCnWk3lg90gIRc/sd0",
    ),
    (
        "pbkdf2$320000$50:5c3c095bad3043f2af2aa796d98aab8221d2dee58ac6271fee7e275c08a96f5a3654ce9c53220fd1d7c0620541385cdb2c21:c43bcad76c008a9b0a6b5fc933154a6d",
        "$pbkdf2-sha256$i=320000$xDvK12wAipsKa1/JMxVKbQ$XDwJW60wQ/KvKqeW2YqrgiHS3uWKxicf7n4nXAipb1o2VM6cUyIP0dfAYgVBOFzbLCE",
    ),
    (
        "pbkdf2$1000$32:50b797329c59d2fff82635c383b51623fa58430b5f2b48a5ab67602d3c652a3f:e28404a897c525262e6a7c07bcbee841f745c55d4e9f747f615164c6f728d718",
        "$pbkdf2-sha256$i=1000$4oQEqJfFJSYuanwHvL7oQfdFxV1On3R/YVFkxvco1xg$ULeXMpxZ0v/4JjXDg7UWI/pYQwtfK0ilq2dgLTxlKj8",
    ),
    (
        "scrypt:3c13ad8ff9eafae7695e9a8a77f4a9be8e8e3fc3fb7c22cb4da96029e36ff89577760841d55ee2fcff1eec780887398b886e:GGCg9QPvtZ",
        "$scrypt$ln=16,r=16,p=2$R0dDZzlRUHZ0Wg$PBOtj/nq+udpXpqKd/Spvo6OP8P7fCLLTalgKeNv+JV3dghB1V7i/P8e7HgIhzmLiG4",
    ),
    (
        "scrypt$65536$16$2$50:3bab00925611f072e8a731e78f1e28eeb93973880bb2c16138264ccc5a0ddad8ab721f974d82003edd950480ceb2f69a53b0:83d7fb9659234074f5258f6c68082389",
        "$scrypt$ln=16,r=16,p=2$g9f7llkjQHT1JY9saAgjiQ$O6sAklYR8HLopzHnjx4o7rk5c4gLssFhOCZMzFoN2tirch+XTYIAPt2VBIDOsvaaU7A",
    ),
    (
        "scrypt$1024$8$1$64:b91de87c78387cc5c3b2bce33a5c4edbff13ef5e605a101f5566e5d6250c11e313179649982f05e47818e550bdb76855559528017d673e9862a6d44378566359:d2e47f1e175a90bc432fb946e6a94711",
        "$scrypt$ln=10,r=8,p=1$0uR/HhdakLxDL7lG5qlHEQ$uR3ofHg4fMXDsrzjOlxO2/8T715gWhAfVWbl1iUMEeMTF5ZJmC8F5HgY5VC9t2hVVZUoAX1nPphiptRDeFZjWQ",
    ),
    (
        "bcrypt:$2a$04$H7GlmPHH3tDOprI6HzB9/uEl5dEIOzN5NXrpP6mwgM2o5W7cUAB7O:7Be6WsT9CB",
        "$2a$04$H7GlmPHH3tDOprI6HzB9/uEl5dEIOzN5NXrpP6mwgM2o5W7cUAB7O",
    ),
    (
        "bcrypt$4:$2a$04$lJ7AbM98e/tkQXTp29cnxuKmjF.o9GGi/V9P5OlvcCOK7ARDEru3G:c3c20624292e3b83d5a9c6eae1ec2a0f",
        "$2a$04$lJ7AbM98e/tkQXTp29cnxuKmjF.o9GGi/V9P5OlvcCOK7ARDEru3G",
    ),
    (
        "pbkdf2:e4ab3db9f2273b68928383674c5b24af149b51f5f46c6fd8a5312aafa967459e7ee7cc2823ef5d2ceebfa0aaa3e07c66b368:qQMobzzw6M",
        "$pbkdf2-sha256$i=10000$cVFNb2J6enc2TQ$5Ks9ufInO2iSg4NnTFskrxSbUfX0bG/YpTEqr6lnRZ5+58woI+9dLO6/oKqj4Hxms2g",
    ),
    (
        "pbkdf2_v1:59aa1643df20912dc4fd5c9368017810b211ca3bd59ce0e6711a48bca387fb36d4e67342a231f4cd118718cfac6c6ccf4a5c:6dc470a26b4544feb314208d5639e6f1",
        "$pbkdf2-sha256$i=10000$bcRwomtFRP6zFCCNVjnm8Q$WaoWQ98gkS3E/VyTaAF4ELIRyjvVnODmcRpIvKOH+zbU5nNCojH0zRGHGM+sbGzPSlw",
    ),
    (
        "pbkdf2_v2:dce93d90bd7815ad3ac3c7d9092144f096e345d56d187890038860c8a66ae0442ac252296578157201940721499615ec3774:R7N1aYohfr",
        "$pbkdf2-sha256$i=50000$UjdOMWFZb2hmcg$3Ok9kL14Fa06w8fZCSFE8JbjRdVtGHiQA4hgyKZq4EQqwlIpZXgVcgGUByFJlhXsN3Q",
    ),
    (
        "pbkdf2_hi:f83091e9dab08b962aa2911e45586d70d2a268150354c607f96841ae0b82b3e71e717f78af35c72f9d0e13f734da30351c38:a1e7a426108e158fb59e0945cfe8610c887948183be437bc276566f3835b05f1",
        "$pbkdf2-sha256$i=320000$oeekJhCOFY+1nglFz+hhDIh5SBg75De8J2Vm84NbBfE$+DCR6dqwi5YqopEeRVhtcNKiaBUDVMYH+WhBrguCs+cecX94rzXHL50OE/c02jA1HDg",
    ),
    (
        "pbkdf2$10000$50:bc796fabe80e9dba31e5af75331862a8bfc9c9f7d786abbd9588be248cea72a4d00fb4f9e19bc36e3061adcc31f8376c0a22:itCLORxWis",
        "$pbkdf2-sha256$i=10000$aXRDTE9SeFdpcw$vHlvq+gOnbox5a91MxhiqL/JyffXhqu9lYi+JIzqcqTQD7T54ZvDbjBhrcwx+DdsCiI",
    ),
    (
        "pbkdf2$50000$50:5f12ffe449d033e6fd9df2cdc5e8b050b95d0e25586d09c1d273f6435e4870ccedcfafbe0f4d0ff67c8d1bcf86a61a8ed716:51c9722cd2c642e6e86403c0afeda768",
        "$pbkdf2-sha256$i=50000$UclyLNLGQuboZAPAr+2naA$XxL/5EnQM+b9nfLNxeiwULldDiVYbQnB0nP2Q15IcMztz6++D00P9nyNG8+GphqO1xY",
    ),
    (
        "pbkdf2$320000$50:020672769dcb0be3abd054c8c71fc10041d563d90bbe0a83bd83689a8021362b56e789f281a4a6c7f744d08277c9246f6e4b:323f6d7cc72c9ea48608b22a13e1afd7",
        "$pbkdf2-sha256$i=320000$Mj9tfMcsnqSGCLIqE+Gv1w$AgZydp3LC+Or0FTIxx/BAEHVY9kLvgqDvYNomoAhNitW54nygaSmx/dE0IJ3ySRvbks",
    ),
    (
        "pbkdf2$1000$32:9fbba32daadbb95759d817df73130b6c050c581d2251568b0ffb5437aff0d205:8cf90e6f20db1158ab47f04ce1fc2c71e09454839fc36a9b488bfe66d23a02c1",
        "$pbkdf2-sha256$i=1000$jPkObyDbEVirR/BM4fwsceCUVIOfw2qbSIv+ZtI6AsE$n7ujLarbuVdZ2BffcxMLbAUMWB0iUVaLD/tUN6/w0gU",
    ),
    (
        "scrypt:2a6819362bbe6d10c18d21378a7a74d1f7d3278f66ba3f05bc321aa56648fbec5ad606fbafcc6d0d1e3d1e0468b3845ac150:BiCh6ZizkH",
        "$scrypt$ln=16,r=16,p=2$QmlDaDZaaXprSA$KmgZNiu+bRDBjSE3inp00ffTJ49muj8FvDIapWZI++xa1gb7r8xtDR49HgRos4RawVA",
    ),
    (
        "scrypt$65536$16$2$50:b2ae4ea4afb62aa255fd3e58e31082a5271eae29e29ae5b6a43a4dc4c8dea708122625b8d923e18abfeae4196940c7b720b8:fb2f5521ead3ce897ef2fc41addef3a2",
        "$scrypt$ln=16,r=16,p=2$+y9VIerTzol+8vxBrd7zog$sq5OpK+2KqJV/T5Y4xCCpScerinimuW2pDpNxMjepwgSJiW42SPhir/q5BlpQMe3ILg",
    ),
    (
        "scrypt$1024$8$1$64:31763e78b297834eb18d860488820c8978b400d21a6069525ffb661c6a7622f43edeffbccdffbc8c07118043173316978275ef801c80748302e1276ec2a5f1e8:3762d60f85420b12634f740691a4b57d",
        "$scrypt$ln=10,r=8,p=1$N2LWD4VCCxJjT3QGkaS1fQ$MXY+eLKXg06xjYYEiIIMiXi0ANIaYGlSX/tmHGp2IvQ+3v+8zf+8jAcRgEMXMxaXgnXvgByAdIMC4SduwqXx6A",
    ),
    (
        "bcrypt:$2a$04$eX1AuySYZZPbqVmmWZWKPuAy9iBePXrGFF9ZS5YhUTgCt131DWzzm:nfGfulH2gn",
        "$2a$04$eX1AuySYZZPbqVmmWZWKPuAy9iBePXrGFF9ZS5YhUTgCt131DWzzm",
    ),
    (
        "bcrypt$4:$2a$04$MpWH7LBC7QWVMYUSiKFP5uL1fR8VLCYczeHNnCScacf5.Hg3YtjPy:7a432d84c631ded74066ce093166b7b8",
        "$2a$04$MpWH7LBC7QWVMYUSiKFP5uL1fR8VLCYczeHNnCScacf5.Hg3YtjPy",
    ),
    ("$5$x:y", "$5$x:y"),
];

fn read_texts() -> &'static [(&'static str, &'static str)] {
    READ
}

#[test]
fn texts_of_gitea(rt: HostRuntime) {
    let maker = Maker::Application(Application::Gitea);
    for (text, stored) in read_texts() {
        assert!(rt; is_read(maker, text, stored), "{text}");
        assert!(rt; is_read(maker, stored, stored), "{stored}");
    }
}

// Texts with a fault, the first of those that they have.
const FAULTS: &[(&str, ForeignFault)] = &[
    ("", ForeignFault::Unread(Unread::Other)),
    ("plain", ForeignFault::Unread(Unread::Other)),
    ("pbkdf2", ForeignFault::Unread(Unread::Other)),
    (
        "pbkdf2_v3:1313131313131313131313131313131313131313131313131313131313131313131313131313131313131313131313131313:abcdefghij",
        ForeignFault::Unread(Unread::Other),
    ),
    (
        "argon2:1313131313131313131313131313131313131313131313131313131313131313131313131313131313131313131313131313:abcdefghij",
        ForeignFault::Unread(Unread::Other),
    ),
    (
        "argon2$2$65536$8$50:1313131313131313131313131313131313131313131313131313131313131313131313131313131313131313131313131313:abcdefghij",
        ForeignFault::Unread(Unread::Other),
    ),
    (
        "Pbkdf2:1313131313131313131313131313131313131313131313131313131313131313131313131313131313131313131313131313:abcdefghij",
        ForeignFault::Unread(Unread::Other),
    ),
    (
        "pbkdf2:1313131313131313131313131313131313131313131313131313131313131313131313131313131313131313131313131313",
        ForeignFault::Form,
    ),
    (
        "pbkdf2:1313131313131313131313131313131313131313131313131313131313131313131313131313131313131313131313131313:abcdefghij:x",
        ForeignFault::Form,
    ),
    (
        "pbkdf2_hi:1313131313131313131313131313131313131313131313131313131313131313131313131313131313131313131313131313:abcdefghij:",
        ForeignFault::Form,
    ),
    (
        "pbkdf2$10000:1313131313131313131313131313131313131313131313131313131313131313131313131313131313131313131313131313:abcdefghij",
        ForeignFault::Form,
    ),
    (
        "pbkdf2$10000$50$1:1313131313131313131313131313131313131313131313131313131313131313131313131313131313131313131313131313:abcdefghij",
        ForeignFault::Form,
    ),
    (
        "pbkdf2$10000$50:1313131313131313131313131313131313131313131313131313131313131313131313131313131313131313131313131313",
        ForeignFault::Form,
    ),
    (
        "pbkdf2$10000$50:1313131313131313131313131313131313131313131313131313131313131313131313131313131313131313131313131313:abcdefghij:",
        ForeignFault::Form,
    ),
    (
        "pbkdf2$010000$50:1313131313131313131313131313131313131313131313131313131313131313131313131313131313131313131313131313:abcdefghij",
        ForeignFault::Rounds,
    ),
    (
        "pbkdf2$$50:1313131313131313131313131313131313131313131313131313131313131313131313131313131313131313131313131313:abcdefghij",
        ForeignFault::Rounds,
    ),
    (
        "pbkdf2:1313131313131313131313131313131313131313131313131313131313131313131313131313131313131313131313131313:abcdefghi",
        ForeignFault::Salt,
    ),
    (
        "pbkdf2:1313131313131313131313131313131313131313131313131313131313131313131313131313131313131313131313131313:abcdefghijk",
        ForeignFault::Salt,
    ),
    (
        "pbkdf2:1313131313131313131313131313131313131313131313131313131313131313131313131313131313131313131313131313:ABABABABABABABAB",
        ForeignFault::Salt,
    ),
    (
        "pbkdf2:1313131313131313131313131313131313131313131313131313131313131313131313131313131313131313131313131313:",
        ForeignFault::SaltLength,
    ),
    (
        "pbkdf2:1313131313131313131313131313131313131313131313131313131313131313131313131313131313131313131313131313:abababababab",
        ForeignFault::SaltLength,
    ),
    (
        "pbkdf2_v2:1313131313131313131313131313131313131313131313131313131313131313131313131313131313131313131313131313:ababababababababababababababababababababababababababababababababababababababababababababababababab",
        ForeignFault::SaltLength,
    ),
    (
        "pbkdf2:1G1G1G1G1G1G1G1G1G1G1G1G1G1G1G1G1G1G1G1G1G1G1G1G1G1G1G1G1G1G1G1G1G1G1G1G1G1G1G1G1G1G1G1G1G1G1G1G1G1G:abcdefghij",
        ForeignFault::Hash,
    ),
    (
        "pbkdf2:1A1A1A1A1A1A1A1A1A1A1A1A1A1A1A1A1A1A1A1A1A1A1A1A1A1A1A1A1A1A1A1A1A1A1A1A1A1A1A1A1A1A1A1A1A1A1A1A1A1A:abcdefghij",
        ForeignFault::Hash,
    ),
    (
        "pbkdf2:13131313131313131313131313131313131313131313131313131313131313131313131313131313131313131313131313131:abcdefghij",
        ForeignFault::Hash,
    ),
    (
        "pbkdf2:13131313131313131313131313131313131313131313131313131313131313131313131313131313131313131313131313:abcdefghij",
        ForeignFault::HashLength,
    ),
    (
        "pbkdf2:131313131313131313131313131313131313131313131313131313131313131313131313131313131313131313131313131313:abcdefghij",
        ForeignFault::HashLength,
    ),
    (
        "pbkdf2$10000$32:1313131313131313131313131313131313131313131313131313131313131313131313131313131313131313131313131313:abcdefghij",
        ForeignFault::HashLength,
    ),
    (
        "pbkdf2$10000$050:1313131313131313131313131313131313131313131313131313131313131313131313131313131313131313131313131313:abcdefghij",
        ForeignFault::HashLength,
    ),
    (
        "pbkdf2$10000$9:131313131313131313:abcdefghij",
        ForeignFault::HashLength,
    ),
    (
        "scrypt$65536$16$2:1313131313131313131313131313131313131313131313131313131313131313131313131313131313131313131313131313:abcdefghij",
        ForeignFault::Form,
    ),
    (
        "scrypt$65536$16$2$50$1:1313131313131313131313131313131313131313131313131313131313131313131313131313131313131313131313131313:abcdefghij",
        ForeignFault::Form,
    ),
    (
        "scrypt$65535$16$2$50:1313131313131313131313131313131313131313131313131313131313131313131313131313131313131313131313131313:abcdefghij",
        ForeignFault::Cost,
    ),
    (
        "scrypt$65536$$2$50:1313131313131313131313131313131313131313131313131313131313131313131313131313131313131313131313131313:abcdefghij",
        ForeignFault::Cost,
    ),
    (
        "scrypt$65536$16$02$50:1313131313131313131313131313131313131313131313131313131313131313131313131313131313131313131313131313:abcdefghij",
        ForeignFault::Cost,
    ),
    (
        "scrypt$65536$16$2$64:1313131313131313131313131313131313131313131313131313131313131313131313131313131313131313131313131313:abcdefghij",
        ForeignFault::HashLength,
    ),
    (
        "scrypt:1313131313131313131313131313131313131313131313131313131313131313:abcdefghij",
        ForeignFault::HashLength,
    ),
    ("bcrypt:$2a$10$x", ForeignFault::Form),
    ("bcrypt:$6$x:abcdefghij", ForeignFault::Form),
    ("bcrypt$10:abcdefghij:$2a$10$x", ForeignFault::Form),
    ("bcrypt$10:$2a$10$x", ForeignFault::Form),
    ("bcrypt:$2a$10$x:a:b", ForeignFault::Form),
    (
        "bcrypt2:$2a$10$x:abcdefghij",
        ForeignFault::Unread(Unread::Other),
    ),
];

fn faults() -> &'static [(&'static str, ForeignFault)] {
    FAULTS
}

#[test]
fn first_faults_of_gitea(rt: HostRuntime) {
    let maker = Maker::Application(Application::Gitea);
    for (text, fault) in faults() {
        assert!(rt; fault_of(maker, text) == Some(*fault), "{text}");
    }
}
