//! Texts of applications, by their published form: the texts of bcrypt are those of python3-bcrypt, of Argon2 those of argon2-cffi, and the
//! keys are those of Python's hashlib. The records were put together by hashlib's and base64's results.

use application_texts::{Application, Maker, maker_text};
use foreign_text::{Foreign, MadeText};

// Whether the stored text is this one.
pub(crate) fn is_read(maker: Maker, text: &str, stored: &str) -> bool {
    let mut made = MadeText::new();
    match maker_text(maker, text, &mut made) {
        Ok(Some(held)) => held == stored,
        Ok(None) => made.as_slice() == stored.as_bytes(),
        Err(_) => false,
    }
}

// Texts of applications, and the stored texts for them.
const READ: &[(Application, &str, &str)] = &[
    (
        Application::Jenkins,
        "#jbcrypt:$2a$04$IuzhTxxYhx5lkd02wqLeAOHgOLmZ3feI3vbu9Y7gdg2VLIYXL40C2",
        "$2a$04$IuzhTxxYhx5lkd02wqLeAOHgOLmZ3feI3vbu9Y7gdg2VLIYXL40C2",
    ),
    (
        Application::Nextcloud,
        "1|$2y$05$ic4lEAGsJwGxJ12XurjIMenS1/boM7hapbQlfFFkPSTna6VU2NqcK",
        "$2y$05$ic4lEAGsJwGxJ12XurjIMenS1/boM7hapbQlfFFkPSTna6VU2NqcK",
    ),
    (
        Application::Nextcloud,
        "2|$argon2i$v=19$m=1024,t=2,p=1$BKv871uBgYS4h7Bw7scteQ$1hAKbz5x8N+vAS4tJSzh9w",
        "$argon2i$v=19$m=1024,t=2,p=1$BKv871uBgYS4h7Bw7scteQ$1hAKbz5x8N+vAS4tJSzh9w",
    ),
    (
        Application::Nextcloud,
        "3|$argon2id$v=19$m=1024,t=2,p=1$JU3aWtRGuCPa1CFs4EFzgQ$X3ZMtl4FFj3LHgQ4TSKAUA",
        "$argon2id$v=19$m=1024,t=2,p=1$JU3aWtRGuCPa1CFs4EFzgQ$X3ZMtl4FFj3LHgQ4TSKAUA",
    ),
    (
        Application::HomeAssistant,
        "JDJiJDA0JEZvaW03VHYwc2xqc1F4QXlKMDV1a3UyQ2NNQjZGdWRENnpudnljemRkV2w0a0poSGxrR2x1",
        "$2b$04$Foim7Tv0sljsQxAyJ05uku2CcMB6FudD6znvyczddWl4kJhHlkGlu",
    ),
    (
        Application::Jenkins,
        "$PBKDF2$HMACSHA512:1000:942a089dd8c2b7426288e30771e80c36$93344cc93e98deee75a4a5cdbd9f7916a7a3b89e4a726006a4753e4d7b7a5932251042db97c3379ca0854508157481f3cb793bc33bdcaa74acf0056785e47d0c",
        "$pbkdf2-sha512$i=1000$lCoIndjCt0JiiOMHcegMNg$kzRMyT6Y3u51pKXNvZ95FqejuJ5KcmAGpHU+TXt6WTIlEELbl8M3nKCFRQgVdIHzy3k7wzvcqnSs8AVnheR9DA",
    ),
    (
        Application::CouchDb,
        "-pbkdf2-64be53b7ff1f4e394686f4b1f16ff9a05bd7ac4c,2bffd70adcb71d6912bc586eb9bc90a0,600",
        "$pbkdf2-sha1$i=600$MmJmZmQ3MGFkY2I3MWQ2OTEyYmM1ODZlYjliYzkwYTA$ZL5Tt/8fTjlGhvSx8W/5oFvXrEw",
    ),
    (
        Application::CouchDb,
        "-pbkdf2-sha,14f409101588635e92b1fc3c42bcf7e48936d6ce,2bf25af7e5535d5ba5643a2a32da138d,600",
        "$pbkdf2-sha1$i=600$MmJmMjVhZjdlNTUzNWQ1YmE1NjQzYTJhMzJkYTEzOGQ$FPQJEBWIY16Ssfw8Qrz35Ik21s4",
    ),
    (
        Application::CouchDb,
        "-pbkdf2-sha256,744b5658e1bfc69d873c8d0fd4c805ec233de4946b055f7b5628aa0e2a9d9eaf,8fa937bd939ce86f844c363dfc79a848,600",
        "$pbkdf2-sha256$i=600$OGZhOTM3YmQ5MzljZTg2Zjg0NGMzNjNkZmM3OWE4NDg$dEtWWOG/xp2HPI0P1MgF7CM95JRrBV97ViiqDiqdnq8",
    ),
    (
        Application::CouchDb,
        "-pbkdf2-sha512,569f11c9074654a2a58be5ce16612eb3288d9ed04693dd13826484ad18caefda5ebb7416a9dd94cabf9784e0b5670b125617d87da6682622eff9d5e85a9193c6,33c455e6111cd5c90b537306711de32f,600",
        "$pbkdf2-sha512$i=600$MzNjNDU1ZTYxMTFjZDVjOTBiNTM3MzA2NzExZGUzMmY$Vp8RyQdGVKKli+XOFmEusyiNntBGk90TgmSErRjK79peu3QWqd2Uyr+XhOC1ZwsSVhfYfaZoJiLv+dXoWpGTxg",
    ),
    (
        Application::Grafana,
        "135ea5a3382f2bcd19c4790a43dd3aca475e435be942e0c3ed331d0c6cb11be8dc849748abe428b4b7195093d5ef11775e34:M1oOVC24GT",
        "$pbkdf2-sha256$i=10000$TTFvT1ZDMjRHVA$E16lozgvK80ZxHkKQ906ykdeQ1vpQuDD7TMdDGyxG+jchJdIq+QotLcZUJPV7xF3XjQ",
    ),
    (
        Application::Jenkins,
        "#jbcrypt:$2a$04$qIQuN1p4A8eUmpi2p2AWceSIJgyjLZ2aEXqnaJZ7PK1HpDh34xu5a",
        "$2a$04$qIQuN1p4A8eUmpi2p2AWceSIJgyjLZ2aEXqnaJZ7PK1HpDh34xu5a",
    ),
    (
        Application::Nextcloud,
        "1|$2y$05$qMPja41T37mt57vKnpJ5w.7UxDbFNOeFthqt7hzrQ8InFUsWpnVa.",
        "$2y$05$qMPja41T37mt57vKnpJ5w.7UxDbFNOeFthqt7hzrQ8InFUsWpnVa.",
    ),
    (
        Application::Nextcloud,
        "2|$argon2i$v=19$m=1024,t=2,p=1$9S82k+UWd/NfS9VuaL6E9A$LCIpdPizUZ/JosLqGKeZGQ",
        "$argon2i$v=19$m=1024,t=2,p=1$9S82k+UWd/NfS9VuaL6E9A$LCIpdPizUZ/JosLqGKeZGQ",
    ),
    (
        Application::Nextcloud,
        "3|$argon2id$v=19$m=1024,t=2,p=1$HvQxWrmwlpMD1tml1iwmWQ$mS7xx/5mbM6cFmaZE/ClSQ",
        "$argon2id$v=19$m=1024,t=2,p=1$HvQxWrmwlpMD1tml1iwmWQ$mS7xx/5mbM6cFmaZE/ClSQ",
    ),
    (
        Application::HomeAssistant,
        "JDJiJDA0JEVseWt3NHlKVmdaZS84NGhnbk1Bc2VYQUZZZWZLaHlKMzIyZHpQZXAuQWJWSXk5RmJzYm1l",
        "$2b$04$Elykw4yJVgZe/84hgnMAseXAFYefKhyJ322dzPep.AbVIy9Fbsbme",
    ),
    (
        Application::Jenkins,
        "$PBKDF2$HMACSHA512:1000:64eb976e2e34567a8133d75406e3afd4$b80f58463b6a2a9484f5a8fb25b7190a3f4355482a8a039589292869a888112c4b8806ad40aa8ee947fc86d4483d8c9b4ed3dc35e93fe0773876f67b3af38815",
        "$pbkdf2-sha512$i=1000$ZOuXbi40VnqBM9dUBuOv1A$uA9YRjtqKpSE9aj7JbcZCj9DVUgqigOViSkoaaiIESxLiAatQKqO6Uf8htRIPYybTtPcNek/4Hc4dvZ7OvOIFQ",
    ),
    (
        Application::CouchDb,
        "-pbkdf2-c22acf3cb4d49b6cfa305ce1f1634a0883788203,54d3237a97d9d1991a91370c47aadc7f,600",
        "$pbkdf2-sha1$i=600$NTRkMzIzN2E5N2Q5ZDE5OTFhOTEzNzBjNDdhYWRjN2Y$wirPPLTUm2z6MFzh8WNKCIN4ggM",
    ),
    (
        Application::CouchDb,
        "-pbkdf2-sha,573484f4ebe290dd1df0d141d83c238587323e5f,5428ac3a78f1e68b02adc10c48cd680f,600",
        "$pbkdf2-sha1$i=600$NTQyOGFjM2E3OGYxZTY4YjAyYWRjMTBjNDhjZDY4MGY$VzSE9OvikN0d8NFB2DwjhYcyPl8",
    ),
    (
        Application::CouchDb,
        "-pbkdf2-sha256,7b7fc8343277473aae0b23823031492ecc98cc813f4ec45bdf9507eef753889e,58e6d829d78df55a98872c731ffec109,600",
        "$pbkdf2-sha256$i=600$NThlNmQ4MjlkNzhkZjU1YTk4ODcyYzczMWZmZWMxMDk$e3/INDJ3RzquCyOCMDFJLsyYzIE/TsRb35UH7vdTiJ4",
    ),
    (
        Application::CouchDb,
        "-pbkdf2-sha512,e08384732dbd4f00add787ccdf4e40b8fea814b9ad5094fd21ce929eb02a3077959fffc9db8cd04f6b89aea812f5a0fea4876c235a95eb9ad3fc3e40836aef45,e9d295a3d0b29a8cae52c615d6f4828e,600",
        "$pbkdf2-sha512$i=600$ZTlkMjk1YTNkMGIyOWE4Y2FlNTJjNjE1ZDZmNDgyOGU$4IOEcy29TwCt14fM305AuP6oFLmtUJT9Ic6SnrAqMHeVn//J24zQT2uJrqgS9aD+pIdsI1qV65rT/D5Ag2rvRQ",
    ),
    (
        Application::Grafana,
        "f2a9ace705969b13c757747c400f15b7f2dcf549b610d4f54c68b910483e8b9eb2e953aa17b836c6a37af31ffdd5072aa350:i5ODvGs9WN",
        "$pbkdf2-sha256$i=10000$aTVPRHZHczlXTg$8qms5wWWmxPHV3R8QA8Vt/Lc9Um2ENT1TGi5EEg+i56y6VOqF7g2xqN68x/91Qcqo1A",
    ),
    (
        Application::Jenkins,
        "#jbcrypt:$2a$04$dAe.BNbwz18c.eATqLXyZeXCtFLXUUq8nWoMfh098bfHie3/xU55a",
        "$2a$04$dAe.BNbwz18c.eATqLXyZeXCtFLXUUq8nWoMfh098bfHie3/xU55a",
    ),
    (
        Application::Nextcloud,
        "1|$2y$05$9po0DvcAHOPe5R2mlUwdSO7nWBGGWAo/FUD4a8.CrpaxkIb9wI3DG",
        "$2y$05$9po0DvcAHOPe5R2mlUwdSO7nWBGGWAo/FUD4a8.CrpaxkIb9wI3DG",
    ),
    (
        Application::Nextcloud,
        "2|$argon2i$v=19$m=1024,t=2,p=1$Z6MwiIBksXqF16kFt+BMLg$xMjvGQBqJlMJo7/DHdiuaA",
        "$argon2i$v=19$m=1024,t=2,p=1$Z6MwiIBksXqF16kFt+BMLg$xMjvGQBqJlMJo7/DHdiuaA",
    ),
    (
        Application::Nextcloud,
        "3|$argon2id$v=19$m=1024,t=2,p=1$fdnESRR9IzPXnBhCzHgitQ$r7hebHdTaNfyHsa+fLlbdA",
        "$argon2id$v=19$m=1024,t=2,p=1$fdnESRR9IzPXnBhCzHgitQ$r7hebHdTaNfyHsa+fLlbdA",
    ),
    (
        Application::HomeAssistant,
        "JDJiJDA0JDFkZ2tBdVY3dU9SRjN3ZC9VRjJRUnVub2F3VFIvUjZCS3JSQWppRlk5RmdWZ1N4RXIxTTN1",
        "$2b$04$1dgkAuV7uORF3wd/UF2QRunoawTR/R6BKrRAjiFY9FgVgSxEr1M3u",
    ),
    (
        Application::Jenkins,
        "$PBKDF2$HMACSHA512:1000:38ec3d8ee2031284387ef015d0288d66$d5103bf651913ec5780065a0b157887318e2665a8ca9983ae3f3438bc67522d85a1dddae5878cb4c59665376ac19cd3e9d07488aa51409df5e1a647a6f0fff87",
        "$pbkdf2-sha512$i=1000$OOw9juIDEoQ4fvAV0CiNZg$1RA79lGRPsV4AGWgsVeIcxjiZlqMqZg64/NDi8Z1IthaHd2uWHjLTFlmU3asGc0+nQdIiqUUCd9eGmR6bw//hw",
    ),
    (
        Application::CouchDb,
        "-pbkdf2-d3b08e2511824a1df28b7975f55db420a86c991e,b94b2e5ccab8962856143d5d09454796,600",
        "$pbkdf2-sha1$i=600$Yjk0YjJlNWNjYWI4OTYyODU2MTQzZDVkMDk0NTQ3OTY$07COJRGCSh3yi3l19V20IKhsmR4",
    ),
    (
        Application::CouchDb,
        "-pbkdf2-sha,2ed62c9b70b9a246b182f802c47339fb8037baec,f097181634a70f44b32f516d69daa271,600",
        "$pbkdf2-sha1$i=600$ZjA5NzE4MTYzNGE3MGY0NGIzMmY1MTZkNjlkYWEyNzE$LtYsm3C5okaxgvgCxHM5+4A3uuw",
    ),
    (
        Application::CouchDb,
        "-pbkdf2-sha256,1489de6c196073813ca701b96e2cd265f0d0150f5bae096a4e75673b60abb22c,dfb9709fe942b6c29e14fbcab36b526b,600",
        "$pbkdf2-sha256$i=600$ZGZiOTcwOWZlOTQyYjZjMjllMTRmYmNhYjM2YjUyNmI$FInebBlgc4E8pwG5bizSZfDQFQ9brglqTnVnO2Crsiw",
    ),
    (
        Application::CouchDb,
        "-pbkdf2-sha512,792e15a28eb71c7a501bd63f2c1a461695a9493a7e82e6ea3ad86c376d77aca127d9dcbca3fe17fd95ec0abb0ebcb7cd0a13f35ed913b1daeabf2a153e5590d1,a1d0d81d14a1daf152d4bb7da11197e4,600",
        "$pbkdf2-sha512$i=600$YTFkMGQ4MWQxNGExZGFmMTUyZDRiYjdkYTExMTk3ZTQ$eS4Voo63HHpQG9Y/LBpGFpWpSTp+gubqOthsN213rKEn2dy8o/4X/ZXsCrsOvLfNChPzXtkTsdrqvyoVPlWQ0Q",
    ),
    (
        Application::Grafana,
        "a7f9dc19efbbe8ed2f9071f8945efcaf48e87c522db16492096b4d440310fd08605065ff0971d7d605f79a1dde1e1a06d65e:qBPqNaVz1Y",
        "$pbkdf2-sha256$i=10000$cUJQcU5hVnoxWQ$p/ncGe+76O0vkHH4lF78r0jofFItsWSSCWtNRAMQ/QhgUGX/CXHX1gX3mh3eHhoG1l4",
    ),
    (
        Application::Jenkins,
        "#jbcrypt:$2a$04$n9Hf.P9eHpp7/UxPUpfcE.p8JsJonZgngFMXJgrsLKlZiMrHCgI7C",
        "$2a$04$n9Hf.P9eHpp7/UxPUpfcE.p8JsJonZgngFMXJgrsLKlZiMrHCgI7C",
    ),
    (
        Application::Nextcloud,
        "1|$2y$05$Iau2qnFFf5MD5fkjnpQMgeH5JFjlz.MQoULaDTl6Tfv8O4Yn0pFsK",
        "$2y$05$Iau2qnFFf5MD5fkjnpQMgeH5JFjlz.MQoULaDTl6Tfv8O4Yn0pFsK",
    ),
    (
        Application::Nextcloud,
        "2|$argon2i$v=19$m=1024,t=2,p=1$fiqwbD0ScsPGtJAp49JDJQ$Zb6WOrM3LbCeYWqvgZ1JNg",
        "$argon2i$v=19$m=1024,t=2,p=1$fiqwbD0ScsPGtJAp49JDJQ$Zb6WOrM3LbCeYWqvgZ1JNg",
    ),
    (
        Application::Nextcloud,
        "3|$argon2id$v=19$m=1024,t=2,p=1$zKN4S0UkwDqDblGOnfchDA$H/8ATUWWsZdEaxhY6Cuvkg",
        "$argon2id$v=19$m=1024,t=2,p=1$zKN4S0UkwDqDblGOnfchDA$H/8ATUWWsZdEaxhY6Cuvkg",
    ),
    (
        Application::HomeAssistant,
        "JDJiJDA0JGIyWm9ia0k0bzkubHZjS250YmFPemVucnFzZmFjUEdqY1hKcmZiY2I3Q1RWV3VBN1NrRmNL",
        "$2b$04$b2ZobkI4o9.lvcKntbaOzenrqsfacPGjcXJrfbcb7CTVWuA7SkFcK",
    ),
    (
        Application::Jenkins,
        "$PBKDF2$HMACSHA512:1000:da5de161dc20e901c8c3821d11d7c7b3$5baecd509c30a361691ec4b5a88ca411f0b0b76867ad50b67f55e09a74a5ff5a40c573bd76921a3507c5e4cc455f8ff5fd4aee53e26343be61ba24621c2bef8e",
        "$pbkdf2-sha512$i=1000$2l3hYdwg6QHIw4IdEdfHsw$W67NUJwwo2FpHsS1qIykEfCwt2hnrVC2f1XgmnSl/1pAxXO9dpIaNQfF5MxFX4/1/UruU+JjQ75huiRiHCvvjg",
    ),
    (
        Application::CouchDb,
        "-pbkdf2-2852d7282cd1950cb6fd25477ed438aea336f0d8,8b564920ed3e22d8f24a9e3c096a65b1,600",
        "$pbkdf2-sha1$i=600$OGI1NjQ5MjBlZDNlMjJkOGYyNGE5ZTNjMDk2YTY1YjE$KFLXKCzRlQy2/SVHftQ4rqM28Ng",
    ),
    (
        Application::CouchDb,
        "-pbkdf2-sha,6a4d116b3980dd9454b7e9d02c2775623042c2db,9f8991dcfc97ad0b704e2047399e8038,600",
        "$pbkdf2-sha1$i=600$OWY4OTkxZGNmYzk3YWQwYjcwNGUyMDQ3Mzk5ZTgwMzg$ak0RazmA3ZRUt+nQLCd1YjBCwts",
    ),
    (
        Application::CouchDb,
        "-pbkdf2-sha256,d3393798bf36174d6216baa3be3548be5a73b249d825fa9c662a19d4d6801832,282911f412878bd7036524435a6ffa1f,600",
        "$pbkdf2-sha256$i=600$MjgyOTExZjQxMjg3OGJkNzAzNjUyNDQzNWE2ZmZhMWY$0zk3mL82F01iFrqjvjVIvlpzsknYJfqcZioZ1NaAGDI",
    ),
    (
        Application::CouchDb,
        "-pbkdf2-sha512,f70982777146de7f9c87254a4a7046157f6a69f204737c896015497475d3b976c0e5903281952e052d97f5843610d6410fbcbc7c7127241ad220f197d221d1b0,488500c517d71709474a07b5d404fe29,600",
        "$pbkdf2-sha512$i=600$NDg4NTAwYzUxN2Q3MTcwOTQ3NGEwN2I1ZDQwNGZlMjk$9wmCd3FG3n+chyVKSnBGFX9qafIEc3yJYBVJdHXTuXbA5ZAygZUuBS2X9YQ2ENZBD7y8fHEnJBrSIPGX0iHRsA",
    ),
    (
        Application::Grafana,
        "7423ff0ae409d623756ac834ab69e31df217d6b805304b07201ac998abe1607a312a664d47017f0faefa18daf64c9ddde423:TKIgjd2rAD",
        "$pbkdf2-sha256$i=10000$VEtJZ2pkMnJBRA$dCP/CuQJ1iN1asg0q2njHfIX1rgFMEsHIBrJmKvhYHoxKmZNRwF/D676GNr2TJ3d5CM",
    ),
    (Application::Jenkins, "$6$x$y", "$6$x$y"),
    (Application::CouchDb, "$6$x$y", "$6$x$y"),
    (Application::Nextcloud, "$2y$10$x", "$2y$10$x"),
    (Application::Grafana, "$5$x:y", "$5$x:y"),
    (Application::HomeAssistant, "$2b$x", "$2b$x"),
];

fn read_texts() -> &'static [(Application, &'static str, &'static str)] {
    READ
}

#[test]
fn texts_of_applications(rt: HostRuntime) {
    for (application, text, stored) in read_texts() {
        let maker = Maker::Application(*application);
        assert!(rt; is_read(maker, text, stored), "{text}");
        assert!(rt; is_read(maker, stored, stored), "{stored}");
    }
}

#[test]
fn texts_of_foreign_text(rt: HostRuntime) {
    assert!(rt;
        is_read(
            Maker::Foreign(Foreign::Spring),
            "{bcrypt}$2a$04$x",
            "$2a$04$x"
        )
    );
}

#[test]
fn makers_with_colons_and_clear_texts(rt: HostRuntime) {
    let grafana = Maker::Application(Application::Grafana);
    let couchdb = Maker::Application(Application::CouchDb);
    let ldap = Maker::Foreign(Foreign::Ldap);
    assert!(rt; grafana.has_colons() && !couchdb.has_colons() && !ldap.has_colons());
    assert!(rt; Maker::Application(Application::Jenkins).has_colons());
    assert!(rt; couchdb.has_clear_texts() && ldap.has_clear_texts() && !grafana.has_clear_texts());
    let mysql = Maker::Application(Application::MySql);
    assert!(rt; !mysql.has_colons() && mysql.has_clear_texts());
    let gitea = Maker::Application(Application::Gitea);
    assert!(rt; gitea.has_colons() && !gitea.has_clear_texts());
}
