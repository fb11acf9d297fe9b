//! Texts of further makers, by their own programs or their published form. The records were put together by a transcription
//! in Python.

use crate::asked::{fault_of, is_converted};
use foreign_text::{Foreign, ForeignFault, Unread};

// Foreign texts, and the stored texts for them.
const CONVERTED: &[(Foreign, &str, &str)] = &[
    (
        Foreign::Postgres,
        "SCRAM-SHA-256$4096:KKuwZV6QTiARVwYpYRdEYA==$mzeyc9wh1vO3fszeKs/ZRrWSBYkiSD6EsahtoLJMark=:ARZ3AEQM7sKRkXahGQ6nE9PZKKhYG/fuFpDLcFlPaO4=",
        "$scram-sha-256$4096$KKuwZV6QTiARVwYpYRdEYA==$mzeyc9wh1vO3fszeKs/ZRrWSBYkiSD6EsahtoLJMark=$ARZ3AEQM7sKRkXahGQ6nE9PZKKhYG/fuFpDLcFlPaO4=",
    ),
    (
        Foreign::Postgres,
        "SCRAM-SHA-256$4096:tMu4kNZDQonoZ0FAjmNChQ==$xmaEu/q6i1Q8G5Y3ddjz8IFeiHYvq7iyRya2RFM/Tq0=:tVHgTuMNDgjbO4j8Sh8vDD9ljZFS0GEv+O0Oh9IJ87o=",
        "$scram-sha-256$4096$tMu4kNZDQonoZ0FAjmNChQ==$xmaEu/q6i1Q8G5Y3ddjz8IFeiHYvq7iyRya2RFM/Tq0=$tVHgTuMNDgjbO4j8Sh8vDD9ljZFS0GEv+O0Oh9IJ87o=",
    ),
    (
        Foreign::Postgres,
        "$scram-sha-256$4096$KKuwZV6QTiARVwYpYRdEYA==$mzeyc9wh1vO3fszeKs/ZRrWSBYkiSD6EsahtoLJMark=$ARZ3AEQM7sKRkXahGQ6nE9PZKKhYG/fuFpDLcFlPaO4=",
        "$scram-sha-256$4096$KKuwZV6QTiARVwYpYRdEYA==$mzeyc9wh1vO3fszeKs/ZRrWSBYkiSD6EsahtoLJMark=$ARZ3AEQM7sKRkXahGQ6nE9PZKKhYG/fuFpDLcFlPaO4=",
    ),
    (
        Foreign::Dovecot,
        "{SCRAM-SHA-256}4096,eT2ALwn9J59lS3e95d5cLA==,j/FIwttGABb6lm2Kv4iqJL899KAtCC0OrWnpsjzb6Pg=,MTJUwcrMkj9kd8P1ZtdphHl8Zd/6MgTytFkP1bRsy94=",
        "$scram-sha-256-raw$4096$eT2ALwn9J59lS3e95d5cLA==$j/FIwttGABb6lm2Kv4iqJL899KAtCC0OrWnpsjzb6Pg=$MTJUwcrMkj9kd8P1ZtdphHl8Zd/6MgTytFkP1bRsy94=",
    ),
    (
        Foreign::Dovecot,
        "{SCRAM-SHA-256}4096,2wsAGHPOlx02JsAZmaldqg==,YuTv1Lm3hhzcCT/4NWdkGMfzx/ZrEAD+MKhbl0PSfD4=,bQ2PPNyUmx//C6r142IngJs266q3nh2VlMka0CsqffE=",
        "$scram-sha-256-raw$4096$2wsAGHPOlx02JsAZmaldqg==$YuTv1Lm3hhzcCT/4NWdkGMfzx/ZrEAD+MKhbl0PSfD4=$bQ2PPNyUmx//C6r142IngJs266q3nh2VlMka0CsqffE=",
    ),
    (
        Foreign::Dovecot,
        "{scram-sha-256}4096,eT2ALwn9J59lS3e95d5cLA==,j/FIwttGABb6lm2Kv4iqJL899KAtCC0OrWnpsjzb6Pg=,MTJUwcrMkj9kd8P1ZtdphHl8Zd/6MgTytFkP1bRsy94=",
        "$scram-sha-256-raw$4096$eT2ALwn9J59lS3e95d5cLA==$j/FIwttGABb6lm2Kv4iqJL899KAtCC0OrWnpsjzb6Pg=$MTJUwcrMkj9kd8P1ZtdphHl8Zd/6MgTytFkP1bRsy94=",
    ),
    (Foreign::Ldif, "{CRYPT}$6$x$y", "$6$x$y"),
    (Foreign::Ldif, "$6$x$y", "$6$x$y"),
    (
        Foreign::Django,
        "scrypt$16384$lgiNaacDB4gkm0jyI8OXVk$8$1$KRciSWCDMNIhzIGrogpgPe9QbDu1CWAGKOqwqrVxJt0PKDXuf5NqmfuZcvBccejXVstG2VUBGNE5t+pHyMR5Yg==",
        "$scrypt$ln=14,r=8,p=1$bGdpTmFhY0RCNGdrbTBqeUk4T1hWaw$KRciSWCDMNIhzIGrogpgPe9QbDu1CWAGKOqwqrVxJt0PKDXuf5NqmfuZcvBccejXVstG2VUBGNE5t+pHyMR5Yg",
    ),
    (
        Foreign::Django,
        "scrypt$16384$r4F8O2tflDMbE6NTsCREZU$8$1$KicatFNb1F72OcQpVrRQBKGnmGuGF3l5ZWrhRfxULu3DqEQw7f7n2KQNdOyjTzZlsWyd/y+M+ZnW5vGy4fJxFQ==",
        "$scrypt$ln=14,r=8,p=1$cjRGOE8ydGZsRE1iRTZOVHNDUkVaVQ$KicatFNb1F72OcQpVrRQBKGnmGuGF3l5ZWrhRfxULu3DqEQw7f7n2KQNdOyjTzZlsWyd/y+M+ZnW5vGy4fJxFQ",
    ),
    (
        Foreign::Werkzeug,
        "scrypt:32768:8:1$99SgH7WqW6ZV4Mxh$1436d67fe99587ab4e5da38414e8e493e3e1e5146c0b9dbfbb07248d136fcdd2a5802f6fc3b62504742bfa206c7beedf1a46c00da130a9b531a8734ccac74b8e",
        "$scrypt$ln=15,r=8,p=1$OTlTZ0g3V3FXNlpWNE14aA$FDbWf+mVh6tOXaOEFOjkk+Ph5RRsC52/uwckjRNvzdKlgC9vw7YlBHQr+iBse+7fGkbADaEwqbUxqHNMysdLjg",
    ),
    (
        Foreign::Werkzeug,
        "pbkdf2:sha256:260000$5BWei8BRW8kpp9Kc$93b7cdd1df59b052bcb56add92bc86720b1ec2ab54eec0dfa0e57fb9bf58b4ec",
        "$pbkdf2-sha256$i=260000$NUJXZWk4QlJXOGtwcDlLYw$k7fN0d9ZsFK8tWrdkryGcgsewqtU7sDfoOV/ub9YtOw",
    ),
    (
        Foreign::Werkzeug,
        "pbkdf2:sha256:1000$5e7bdRaTg5iHFzYZ$9f7daf8157cc5850e09cd17e808e664fcb5cfd0de3e1d2cdc4f529150bfaa7fe",
        "$pbkdf2-sha256$i=1000$NWU3YmRSYVRnNWlIRnpZWg$n32vgVfMWFDgnNF+gI5mT8tc/Q3j4dLNxPUpFQv6p/4",
    ),
    (
        Foreign::Werkzeug,
        "pbkdf2:sha512:1000$Avb66I6v84NjnjcJujlBRI7IdcB0TSU0OHPjJX3ZC2CssAsL$51283b73434910a69323d270ab458ecf30fca076b0ba748dfe5feb4f3b5ba06b8900fe3a1abae41a00597ea0dccb259b8bfa9a78320933ff2686e841c324d0d3",
        "$pbkdf2-sha512$i=1000$QXZiNjZJNnY4NE5qbmpjSnVqbEJSSTdJZGNCMFRTVTBPSFBqSlgzWkMyQ3NzQXNM$USg7c0NJEKaTI9Jwq0WOzzD8oHawunSN/l/rTztboGuJAP46GrrkGgBZfqDcyyWbi/qaeDIJM/8mhuhBwyTQ0w",
    ),
    (
        Foreign::Ldap,
        "{PBKDF2-SHA256}10000$sWQq97PLLJfwtUUNpWDP8c58+FhUh7h8$XiV8L9iFdYRVs0hKdajkJLu4UVTIu32H4OkSq7DqKaE=",
        "$pbkdf2-sha256$i=10000$sWQq97PLLJfwtUUNpWDP8c58+FhUh7h8$XiV8L9iFdYRVs0hKdajkJLu4UVTIu32H4OkSq7DqKaE",
    ),
    (
        Foreign::Ldap,
        "{PBKDF2-SHA256}10000$rNLDSL78M76syFqGU5+q2aqI3DnbZfyV$mFssZfk4C0bw8NQguEAogV2GlNeUSGB1B0b0uqV3c4A=",
        "$pbkdf2-sha256$i=10000$rNLDSL78M76syFqGU5+q2aqI3DnbZfyV$mFssZfk4C0bw8NQguEAogV2GlNeUSGB1B0b0uqV3c4A",
    ),
    (
        Foreign::Ldap,
        "{PBKDF2-SHA512}10000$K2RrBfcGW2l/la9NsTKtz9p3reAJX2NA$uVkXEMwuHWho6nh1oA3nZNmBIMIe889rTpEdGV9BjOZJb3+tCZFc/gxmWhdJGIGTQsD7KA777XqpEKYnzdPVyg==",
        "$pbkdf2-sha512$i=10000$K2RrBfcGW2l/la9NsTKtz9p3reAJX2NA$uVkXEMwuHWho6nh1oA3nZNmBIMIe889rTpEdGV9BjOZJb3+tCZFc/gxmWhdJGIGTQsD7KA777XqpEKYnzdPVyg",
    ),
    (
        Foreign::Ldap,
        "{PBKDF2-SHA512}10000$5sQD4JD2dABUcAJA8a7of3BVAH0+FZRj$QOkXVB+H+TVyG0bzrV10J6nmSMzNOiPCxfiPfQYt6t4ahnFsMzkb1V90cXHoQYX/0/dErPoKdTl3fx86JZABIQ==",
        "$pbkdf2-sha512$i=10000$5sQD4JD2dABUcAJA8a7of3BVAH0+FZRj$QOkXVB+H+TVyG0bzrV10J6nmSMzNOiPCxfiPfQYt6t4ahnFsMzkb1V90cXHoQYX/0/dErPoKdTl3fx86JZABIQ",
    ),
    (
        Foreign::Ldap,
        "{PBKDF2-SHA256}10000$qzxvLCWIy55wVosd/DhYMQ$WpZi8/IpNbaqrytb4gco7FrQOgXwZ1FWICK8U580E9k",
        "$pbkdf2-sha256$i=10000$qzxvLCWIy55wVosd/DhYMQ$WpZi8/IpNbaqrytb4gco7FrQOgXwZ1FWICK8U580E9k",
    ),
    (
        Foreign::Ldap,
        "{BCRYPT}$2b$05$7RICLnOUdtQCrFeX900FzeBmPkGucKYl8umw6q5gILG6yXU4axhwe",
        "$2b$05$7RICLnOUdtQCrFeX900FzeBmPkGucKYl8umw6q5gILG6yXU4axhwe",
    ),
    (
        Foreign::Dovecot,
        "{SHA512-CRYPT}$6$ATvdeYTBaDyYHssT$Sosb89bxouZKBEBswe7dt6TsyU2fKd3XU/hotRqKl5PbbPvgtrBKmx2Y1OQW4.rMNS2h6wIsEI5oHIjyE1jYW/",
        "$6$ATvdeYTBaDyYHssT$Sosb89bxouZKBEBswe7dt6TsyU2fKd3XU/hotRqKl5PbbPvgtrBKmx2Y1OQW4.rMNS2h6wIsEI5oHIjyE1jYW/",
    ),
    (
        Foreign::Dovecot,
        "{SHA256-CRYPT}$5$gAr34364VnNmKVr8$jN3RXTq6/Li90rxG/I/gGh6I1P5FSvXueUDHla6MJv3",
        "$5$gAr34364VnNmKVr8$jN3RXTq6/Li90rxG/I/gGh6I1P5FSvXueUDHla6MJv3",
    ),
    (
        Foreign::Dovecot,
        "{MD5-CRYPT}$1$6OwRPspb$5abtJEAW0iPvnSpC0KkwC1",
        "$1$6OwRPspb$5abtJEAW0iPvnSpC0KkwC1",
    ),
    (
        Foreign::Dovecot,
        "{BLF-CRYPT}$2y$05$IPyhnD9oak9iipcsU5tlUe4eBPWXOGYkdtVKN92ff1C8N7g2b/ft2",
        "$2y$05$IPyhnD9oak9iipcsU5tlUe4eBPWXOGYkdtVKN92ff1C8N7g2b/ft2",
    ),
    (
        Foreign::Dovecot,
        "{ARGON2I}$argon2i$v=19$m=32768,t=4,p=1$ZakxnDwbOqEhkIArb7Kusw$kRd95u3F6CqwW7Ho0kn7MOm0U0UfC8TIfz3PKlqbetY",
        "$argon2i$v=19$m=32768,t=4,p=1$ZakxnDwbOqEhkIArb7Kusw$kRd95u3F6CqwW7Ho0kn7MOm0U0UfC8TIfz3PKlqbetY",
    ),
    (
        Foreign::Dovecot,
        "{ARGON2ID}$argon2id$v=19$m=65536,t=3,p=1$j8WtnJ3XP1/aGH1x4sR5Aw$Z+sRSAUfCyEk2SQM2436c0FKilyd+oFreHfEZJE1UT4",
        "$argon2id$v=19$m=65536,t=3,p=1$j8WtnJ3XP1/aGH1x4sR5Aw$Z+sRSAUfCyEk2SQM2436c0FKilyd+oFreHfEZJE1UT4",
    ),
    (
        Foreign::Dovecot,
        "{CRYPT}$2y$05$Q9/dFeb5fwH8vpuX1CNFCum1k6vMU2E3ntwuZmX/HkB7X5VuiioPy",
        "$2y$05$Q9/dFeb5fwH8vpuX1CNFCum1k6vMU2E3ntwuZmX/HkB7X5VuiioPy",
    ),
    (
        Foreign::Spring,
        "{bcrypt}$2a$05$RvCEnjyvFji2WtYbwrxSpel3ILSPwCvdp6tdOeTVIfO5rfUCVjpFy",
        "$2a$05$RvCEnjyvFji2WtYbwrxSpel3ILSPwCvdp6tdOeTVIfO5rfUCVjpFy",
    ),
    (
        Foreign::Spring,
        "{argon2@SpringSecurity_v5_8}$argon2id$v=19$m=16384,t=2,p=1$FrT/ZYxwtE8X5a7JreuWTg$Febr8/mOZ4kaLQx+Ner+DN+rW4XN6MsNK4E4H1BlBxU",
        "$argon2id$v=19$m=16384,t=2,p=1$FrT/ZYxwtE8X5a7JreuWTg$Febr8/mOZ4kaLQx+Ner+DN+rW4XN6MsNK4E4H1BlBxU",
    ),
    (
        Foreign::Spring,
        "{scrypt@SpringSecurity_v5_8}$100801$qccajwGWPjKs71+/qfCUuA==$zjXf/TIT2L9pbV+LwNmyuEkvVc8g3o7uYTWCmaV2lLo=",
        "$scrypt$ln=16,r=8,p=1$qccajwGWPjKs71+/qfCUuA$zjXf/TIT2L9pbV+LwNmyuEkvVc8g3o7uYTWCmaV2lLo",
    ),
    (
        Foreign::Spring,
        "{scrypt@SpringSecurity_v5_8}$100801$rUKYe5w9FkNWntiCgRo5hA==$mmVAXpDn2m0LnfYyiJBRu+I/G4Z8VXZyOzwBjWDAGYY=",
        "$scrypt$ln=16,r=8,p=1$rUKYe5w9FkNWntiCgRo5hA$mmVAXpDn2m0LnfYyiJBRu+I/G4Z8VXZyOzwBjWDAGYY",
    ),
    (
        Foreign::Spring,
        "{pbkdf2@SpringSecurity_v5_8}30a0c502c5a85b696829baaaebfb23b8a8ef02e26f8694f6298d4818b32cbb3fc6d4f7c3e0d9579f1d22aab63a3f0740",
        "$pbkdf2-sha256$i=310000$MKDFAsWoW2loKbqq6/sjuA$qO8C4m+GlPYpjUgYsyy7P8bU98Pg2VefHSKqtjo/B0A",
    ),
    (
        Foreign::Spring,
        "{pbkdf2@SpringSecurity_v5_8}ee5254e5444ebd6d4461ed6040f3f47cf2d8103391730515464f0fd1a14ea2ae10517592563cfb59d62d06a351c8658c",
        "$pbkdf2-sha256$i=310000$7lJU5UROvW1EYe1gQPP0fA$8tgQM5FzBRVGTw/RoU6irhBRdZJWPPtZ1i0Go1HIZYw",
    ),
    (
        Foreign::Elasticsearch,
        "{PBKDF2}10000$lnBNTmsIYdpxfTLc7TVPwTdgauCIOS3GUQt81snmdVo=$vvWHBgNwXW1WowfpO/GEwy04C4p/ea5cjXnptsqBxzE=",
        "$pbkdf2-sha512$i=10000$lnBNTmsIYdpxfTLc7TVPwTdgauCIOS3GUQt81snmdVo$vvWHBgNwXW1WowfpO/GEwy04C4p/ea5cjXnptsqBxzE",
    ),
    (
        Foreign::Elasticsearch,
        "{PBKDF2}10000$C+EChXSueQ3XJGWZIW2BjY64edUmNma31r8nLbPb16g=$CqOlZpckaOva7VxIRXthUPHyvhwguqCk8K+hYI+Ci28=",
        "$pbkdf2-sha512$i=10000$C+EChXSueQ3XJGWZIW2BjY64edUmNma31r8nLbPb16g$CqOlZpckaOva7VxIRXthUPHyvhwguqCk8K+hYI+Ci28",
    ),
    (
        Foreign::AspNet,
        "AQAAAAEAACcQAAAAEHEAkCypsR8WbvoZd6q/u5dWaAEsX22qsDLoTkateh47dUPVVkSeZgHiSbnaa/q4sQ==",
        "$pbkdf2-sha256$i=10000$cQCQLKmxHxZu+hl3qr+7lw$VmgBLF9tqrAy6E5GrXoeO3VD1VZEnmYB4km52mv6uLE",
    ),
    (
        Foreign::AspNet,
        "AQAAAAEAACcQAAAAEOlCe8UegSpj9Cc3brunWC05OeGamNjLe4J7xdrF4u1MNOtmwWhLd0J8imv2HDjQPA==",
        "$pbkdf2-sha256$i=10000$6UJ7xR6BKmP0Jzduu6dYLQ$OTnhmpjYy3uCe8XaxeLtTDTrZsFoS3dCfIpr9hw40Dw",
    ),
    (
        Foreign::AspNet,
        "AQAAAAIAAYagAAAAELr87rkijHD6GRsrTs9xGQ9NuskiEzRmwNWEXnzwwJW10gv2hh/emoQQQcKc6u8LoA==",
        "$pbkdf2-sha512$i=100000$uvzuuSKMcPoZGytOz3EZDw$TbrJIhM0ZsDVhF588MCVtdIL9oYf3pqEEEHCnOrvC6A",
    ),
    (
        Foreign::Cisco,
        "$8$TnGX/fE4KGHOVU$pEhnEvxrvaynpi8j4f.EMHr6M.FzU8xnZnBr/tJdFWk",
        "$pbkdf2-sha256$i=20000$VG5HWC9mRTRLR0hPVlU$1QtzQ7937m+z1uKvGrAQYT3IYAR/gK9zlzN3B5VpRiw",
    ),
    (
        Foreign::Cisco,
        "$9$2MJBozw/9R3UsU$2lFhcKvpghcyw8deP25GOfyZaagyUOGBymkryvOdfo6",
        "$scrypt$ln=14,r=1,p=1$Mk1KQm96dy85UjNVc1U$ExRtoW71sto+8KpqbEHSar+lmms+gaSN+yw3+7apr0I",
    ),
    (
        Foreign::Cisco,
        "$9$6MZw05isLvKepa$iEIPKBWZIQUYmxDrq5mXxh9T1kx5hrOuj4IGDxzGApw",
        "$scrypt$ln=14,r=1,p=1$Nk1adzA1aXNMdktlcGE$uQUbWNilUcgky9P32Hyj9tLfDw9Ht3a6vGUSP9/SM18",
    ),
    (
        Foreign::Mosquitto,
        "$7$101$YerC9N3xKpjuanea$zC6HYIKkNdaUgz7+9yXI4gUV4+QeIB0u1lnEkolHzj3galGIY8b8RV6onTvz7IC0b/HzHwl2RzXICxcrcLdmVA==",
        "$pbkdf2-sha512$i=101$YerC9N3xKpjuanea$zC6HYIKkNdaUgz7+9yXI4gUV4+QeIB0u1lnEkolHzj3galGIY8b8RV6onTvz7IC0b/HzHwl2RzXICxcrcLdmVA",
    ),
    (
        Foreign::Mosquitto,
        "$7$1000$gWaM4AuiVI2pM+Ht$cwVePs3+paqGJug6tN5tUohMkx0Y5uWQoln2XaObS25uXYSfPqBDH3a2WNt26eeOVBkFyB7BQqFfzw73VpRkCQ==",
        "$pbkdf2-sha512$i=1000$gWaM4AuiVI2pM+Ht$cwVePs3+paqGJug6tN5tUohMkx0Y5uWQoln2XaObS25uXYSfPqBDH3a2WNt26eeOVBkFyB7BQqFfzw73VpRkCQ",
    ),
    (
        Foreign::MediaWiki,
        ":pbkdf2:sha512:30000:64:tCctzwXUraWDIG723y3fig==:QwTKWVaRyDcxn/iOhp2A6X7cek5g26/JjXSD0Czoc3bTMxaeLHsBUynZWaJlu+r/wTb6tzwjxFM0lSnQ/fB6+Q==",
        "$pbkdf2-sha512$i=30000$tCctzwXUraWDIG723y3fig$QwTKWVaRyDcxn/iOhp2A6X7cek5g26/JjXSD0Czoc3bTMxaeLHsBUynZWaJlu+r/wTb6tzwjxFM0lSnQ/fB6+Q",
    ),
    (
        Foreign::MediaWiki,
        ":pbkdf2:sha256:10000:32:TtTkqqPp9yBJCyePQjGKjA==:q9ZaSdl9zz/W28U5W8HAJCSfo59Z7LaVVtgmciGTlW8=",
        "$pbkdf2-sha256$i=10000$TtTkqqPp9yBJCyePQjGKjA$q9ZaSdl9zz/W28U5W8HAJCSfo59Z7LaVVtgmciGTlW8",
    ),
    (
        Foreign::Grub,
        "grub.pbkdf2.sha512.1000.447685C92330B6402A84D6E404E59E4A.138AD488C547C7829DB700B0BE17C959186C6A9530F268B74F8BFF5896A4F7EE",
        "$pbkdf2-sha512$i=1000$RHaFySMwtkAqhNbkBOWeSg$E4rUiMVHx4KdtwCwvhfJWRhsapUw8mi3T4v/WJak9+4",
    ),
    (
        Foreign::Grub,
        "grub.pbkdf2.sha512.1000.065C434A82765BC0FAE3403E5026155D214F0D2814CB0134D4074B8A41DACB47.ADEC9D272AB30024CFE4418F2C60185C98E7729B547603820A6927AB5B3AA179085541EFC09DBA6263BC1035098AB9539E9A0CF88973B4A3AD3196CC1F775798",
        "$pbkdf2-sha512$i=1000$BlxDSoJ2W8D640A+UCYVXSFPDSgUywE01AdLikHay0c$reydJyqzACTP5EGPLGAYXJjncptUdgOCCmknq1s6oXkIVUHvwJ26YmO8EDUJirlTnpoM+IlztKOtMZbMH3dXmA",
    ),
    (
        Foreign::Grub,
        "grub.pbkdf2.sha512.1000.EF1D632CC51823A454AA3526C43867AC.5E009FB14A497F4305CC3859A11DAB7A4C61F2DF39EB9492ECF3FD534C9253366A5E7E85DB246D388D78494AD865CE6AE3BD5E2A7CD98AB26A47DD047311CA65",
        "$pbkdf2-sha512$i=1000$7x1jLMUYI6RUqjUmxDhnrA$XgCfsUpJf0MFzDhZoR2rekxh8t8565SS7PP9U0ySUzZqXn6F2yRtOI14SUrYZc5q471eKnzZirJqR90EcxHKZQ",
    ),
];

fn converted() -> &'static [(Foreign, &'static str, &'static str)] {
    CONVERTED
}

#[test]
fn texts_of_makers(rt: HostRuntime) {
    for (foreign, text, stored) in converted() {
        assert!(rt; is_converted(*foreign, text, stored), "{text}");
        assert!(rt; is_converted(*foreign, stored, stored), "{stored}");
    }
}

// Texts with a fault, the first of those that they have.
const FAULTS: &[(Foreign, &str, ForeignFault)] = &[
    (
        Foreign::Postgres,
        "SCRAM-SHA-256$4096:c2FsdA==",
        ForeignFault::Form,
    ),
    (
        Foreign::Postgres,
        "SCRAM-SHA-256$4096$c2FsdA==$AAAAAAAAAAAAAAAAAAAAAAAAAAAAAAAAAAAAAAAAAAA=:AAAAAAAAAAAAAAAAAAAAAAAAAAAAAAAAAAAAAAAAAAA=",
        ForeignFault::Form,
    ),
    (
        Foreign::Postgres,
        "SCRAM-SHA-256$4096:c2FsdA==$AAAAAAAAAAAAAAAAAAAAAAAAAAAAAAAAAAAAAAAAAAA=:AAAAAAAAAAAAAAAAAAAAAAAAAAAAAAAAAAAAAAAAAAA=:",
        ForeignFault::Form,
    ),
    (
        Foreign::Postgres,
        "SCRAM-SHA-256$04096:?$?:?",
        ForeignFault::Rounds,
    ),
    (
        Foreign::Postgres,
        "SCRAM-SHA-256$0:?$?:?",
        ForeignFault::Rounds,
    ),
    (
        Foreign::Postgres,
        "SCRAM-SHA-256$4294967296:?$?:?",
        ForeignFault::Rounds,
    ),
    (
        Foreign::Postgres,
        "SCRAM-SHA-256$4096:c2FsdA$?:?",
        ForeignFault::Salt,
    ),
    (
        Foreign::Postgres,
        "SCRAM-SHA-256$4096:$?:?",
        ForeignFault::SaltLength,
    ),
    (
        Foreign::Postgres,
        "SCRAM-SHA-256$4096:AAAAAAAAAAAAAAAAAAAAAAAAAAAAAAAAAAAAAAAAAAAAAAAAAAAAAAAAAAAAAAAAAA==$?:?",
        ForeignFault::SaltLength,
    ),
    (
        Foreign::Postgres,
        "SCRAM-SHA-256$4096:c2FsdA==$?:AAAAAAAAAAAAAAAAAAAAAAAAAAAAAAAAAAAAAAAAAAA=",
        ForeignFault::Hash,
    ),
    (
        Foreign::Postgres,
        "SCRAM-SHA-256$4096:c2FsdA==$AAAAAAAAAAAAAAAAAAAAAAAAAAAAAAAAAAAAAAAAAAA=:?",
        ForeignFault::Hash,
    ),
    (
        Foreign::Postgres,
        "SCRAM-SHA-256$4096:c2FsdA==$AAAA:AAAAAAAAAAAAAAAAAAAAAAAAAAAAAAAAAAAAAAAAAAA=",
        ForeignFault::HashLength,
    ),
    (
        Foreign::Postgres,
        "SCRAM-SHA-256$4096:c2FsdA==$AAAAAAAAAAAAAAAAAAAAAAAAAAAAAAAAAAAAAAAAAAA=:AAAA",
        ForeignFault::HashLength,
    ),
    (
        Foreign::Dovecot,
        "{SCRAM-SHA-256}4096,c2FsdA==,AAAAAAAAAAAAAAAAAAAAAAAAAAAAAAAAAAAAAAAAAAA=",
        ForeignFault::Form,
    ),
    (
        Foreign::Dovecot,
        "{SCRAM-SHA-256}4096,c2FsdA==,AAAAAAAAAAAAAAAAAAAAAAAAAAAAAAAAAAAAAAAAAAA=,AAAAAAAAAAAAAAAAAAAAAAAAAAAAAAAAAAAAAAAAAAA=,",
        ForeignFault::Form,
    ),
    (
        Foreign::Dovecot,
        "{SCRAM-SHA-256}0,?,?,?",
        ForeignFault::Rounds,
    ),
    (
        Foreign::Dovecot,
        "{SCRAM-SHA-256}4096,x,y,z",
        ForeignFault::Salt,
    ),
    (
        Foreign::Dovecot,
        "{SCRAM-SHA-256}4096,c2FsdA==,y,AAAAAAAAAAAAAAAAAAAAAAAAAAAAAAAAAAAAAAAAAAA=",
        ForeignFault::Hash,
    ),
    (
        Foreign::Dovecot,
        "{SCRAM-SHA-256}4096,c2FsdA==,AAAAAAAAAAAAAAAAAAAAAAAAAAAAAAAAAAAAAAAAAAA=,AAAA",
        ForeignFault::HashLength,
    ),
    (
        Foreign::Django,
        "scrypt$16384$saltsalt$8$1",
        ForeignFault::Form,
    ),
    (
        Foreign::Django,
        "scrypt$16384$saltsalt$8$1$AAAAAAAAAAAAAAAAAAAAAAAAAAAAAAAAAAAAAAAAAAA=$",
        ForeignFault::Form,
    ),
    (Foreign::Django, "scrypt$", ForeignFault::Form),
    (
        Foreign::Django,
        "scrypt$16383$salt$8$1$?",
        ForeignFault::Cost,
    ),
    (
        Foreign::Django,
        "scrypt$016384$salt$8$1$?",
        ForeignFault::Cost,
    ),
    (Foreign::Django, "scrypt$1$salt$8$1$?", ForeignFault::Cost),
    (
        Foreign::Django,
        "scrypt$4294967296$salt$8$1$?",
        ForeignFault::Cost,
    ),
    (
        Foreign::Django,
        "scrypt$16384$salt$+8$1$?",
        ForeignFault::Cost,
    ),
    (
        Foreign::Django,
        "scrypt$16384$salt$8$$?",
        ForeignFault::Cost,
    ),
    (
        Foreign::Django,
        "scrypt$16384$seasalt$8$1$?",
        ForeignFault::SaltLength,
    ),
    (
        Foreign::Django,
        "scrypt$16384$saltsalt$8$1$?",
        ForeignFault::Hash,
    ),
    (
        Foreign::Django,
        "scrypt$16384$saltsalt$8$1$AAAA",
        ForeignFault::HashLength,
    ),
    (
        Foreign::Werkzeug,
        "scrypt:32768:8$saltsalt$0000000000000000000000000000000000000000000000000000000000000000",
        ForeignFault::Form,
    ),
    (
        Foreign::Werkzeug,
        "scrypt:32768:8:1:2$saltsalt$0000000000000000000000000000000000000000000000000000000000000000",
        ForeignFault::Form,
    ),
    (
        Foreign::Werkzeug,
        "scrypt:32768:8:1$saltsalt",
        ForeignFault::Form,
    ),
    (
        Foreign::Werkzeug,
        "scrypt$saltsalt$0000000000000000000000000000000000000000000000000000000000000000",
        ForeignFault::Form,
    ),
    (
        Foreign::Werkzeug,
        "pbkdf2:sha256$saltsalt$0000000000000000000000000000000000000000000000000000000000000000",
        ForeignFault::Form,
    ),
    (
        Foreign::Werkzeug,
        "pbkdf2:sha384:1000$saltsalt$00",
        ForeignFault::Form,
    ),
    (
        Foreign::Werkzeug,
        "pbkdf2:sha256:1000:5$saltsalt$0000000000000000000000000000000000000000000000000000000000000000",
        ForeignFault::Form,
    ),
    (Foreign::Werkzeug, "", ForeignFault::Form),
    (
        Foreign::Werkzeug,
        "scrypt:32767:8:1$salt$0",
        ForeignFault::Cost,
    ),
    (
        Foreign::Werkzeug,
        "scrypt:32768:x:1$salt$0",
        ForeignFault::Cost,
    ),
    (
        Foreign::Werkzeug,
        "pbkdf2:sha256:x$salt$0",
        ForeignFault::Rounds,
    ),
    (
        Foreign::Werkzeug,
        "pbkdf2:sha512:0100$salt$0",
        ForeignFault::Rounds,
    ),
    (
        Foreign::Werkzeug,
        "pbkdf2:sha256:1000$salt$0",
        ForeignFault::SaltLength,
    ),
    (
        Foreign::Werkzeug,
        "pbkdf2:sha256:1000$saltsalt$0",
        ForeignFault::Hash,
    ),
    (
        Foreign::Werkzeug,
        "scrypt:32768:8:1$saltsalt$0A0A0A0A0A0A0A0A0A0A0A0A0A0A0A0A0A0A0A0A0A0A0A0A0A0A0A0A0A0A0A0A",
        ForeignFault::Hash,
    ),
    (
        Foreign::Werkzeug,
        "pbkdf2:sha256:1000$saltsalt$0000000000000000000000000000000000000000000000000000000000000000000000000000000000000000000000000000000000000000000000000000000000",
        ForeignFault::Hash,
    ),
    (
        Foreign::Werkzeug,
        "pbkdf2:sha256:1000$saltsalt$00",
        ForeignFault::HashLength,
    ),
    (
        Foreign::Ldap,
        "{PBKDF2-SHA256}1$YWJjZGVmZ2g$AAAAAAAAAAAAAAAAAAAAAAAAAAAAAAAAAAAAAAAAAAA=",
        ForeignFault::Salt,
    ),
    (
        Foreign::Ldap,
        "{PBKDF2-SHA256}1$YWJjZGVmZ2g=$AAAAAAAAAAAAAAAAAAAAAAAAAAAAAAAAAAAAAAAAAAA",
        ForeignFault::Salt,
    ),
    (
        Foreign::Ldap,
        "{PBKDF2-SHA256}1$YWJjZGVmZ2g=$AAAAAAAAAAAAAAAAAAAAAAAAAAAAAAAAAAAAAAAAAAA==",
        ForeignFault::Hash,
    ),
    (Foreign::Ldap, "{bcrypt}$6$x", ForeignFault::Form),
    (Foreign::Dovecot, "{SHA512-CRYPT}$5$x", ForeignFault::Form),
    (Foreign::Dovecot, "{ARGON2I}$argon2id$x", ForeignFault::Form),
    (Foreign::Dovecot, "{BLF-CRYPT}$1$x", ForeignFault::Form),
    (Foreign::Spring, "secret", ForeignFault::Form),
    (Foreign::Spring, "{bcrypt}$1$x", ForeignFault::Form),
    (Foreign::Spring, "{scrypt}e0801$x$x", ForeignFault::Form),
    (Foreign::Spring, "{scrypt}$e0801$x", ForeignFault::Form),
    (Foreign::Spring, "{scrypt}$0e0801$x$x", ForeignFault::Cost),
    (Foreign::Spring, "{scrypt}$1e080100$x$x", ForeignFault::Cost),
    (Foreign::Spring, "{scrypt}$E0801$x$x", ForeignFault::Cost),
    (Foreign::Spring, "{scrypt}$801$x$x", ForeignFault::Cost),
    (Foreign::Spring, "{scrypt}$e0801$x$x", ForeignFault::Salt),
    (
        Foreign::Spring,
        "{scrypt}$e0801$AAAAAAAAAAAAAAAAAAAAAAAAAAAAAAAAAAAAAAAAAAAAAAAAAAAAAAAAAAAAAAAAAAAAAAAAAAAAAAAAAAAAAA==$x",
        ForeignFault::SaltLength,
    ),
    (
        Foreign::Spring,
        "{pbkdf2@SpringSecurity_v5_8}00",
        ForeignFault::Form,
    ),
    (
        Foreign::Spring,
        "{pbkdf2@SpringSecurity_v5_8}0A0A0A0A0A0A0A0A0A0A0A0A0A0A0A0A0000000000000000000000000000000000000000000000000000000000000000",
        ForeignFault::Salt,
    ),
    (
        Foreign::Spring,
        "{pbkdf2@SpringSecurity_v5_8}000000000000000000000000000000000A0A0A0A0A0A0A0A0A0A0A0A0A0A0A0A0A0A0A0A0A0A0A0A0A0A0A0A0A0A0A0A",
        ForeignFault::Hash,
    ),
    (
        Foreign::Elasticsearch,
        "{PBKDF2}1000$c2FsdHNhbHRzYWx0c2FsdA==",
        ForeignFault::Form,
    ),
    (
        Foreign::Elasticsearch,
        "{PBKDF2}1000$c2FsdHNhbHRzYWx0c2FsdA$AAAAAAAAAAAAAAAAAAAAAAAAAAAAAAAAAAAAAAAAAAA=",
        ForeignFault::Salt,
    ),
    (Foreign::AspNet, "!", ForeignFault::Form),
    (Foreign::AspNet, "", ForeignFault::Form),
    (Foreign::AspNet, "AQAA", ForeignFault::Form),
    (Foreign::AspNet, "AgAAAAEAAAABAAAAAA==", ForeignFault::Form),
    (Foreign::AspNet, "AQAAAAMAAAABAAAAAA==", ForeignFault::Form),
    (Foreign::AspNet, "AQAAAAEAAAABAAAAAQ==", ForeignFault::Form),
    (
        Foreign::AspNet,
        "AQAAAAEAAAAAAAAAAA==",
        ForeignFault::Rounds,
    ),
    (
        Foreign::AspNet,
        "AQAAAAIAAAABAAAAAA==",
        ForeignFault::SaltLength,
    ),
    (
        Foreign::AspNet,
        "AQAAAAIAAAABAAAACAAAAAAAAAAA",
        ForeignFault::HashLength,
    ),
    (
        Foreign::Cisco,
        "$8$saltsaltsaltsa$short",
        ForeignFault::Form,
    ),
    (
        Foreign::Cisco,
        "$8$saltsaltsalts$...........................................",
        ForeignFault::Form,
    ),
    (
        Foreign::Cisco,
        "$9$saltsaltsalts+$...........................................",
        ForeignFault::Form,
    ),
    (
        Foreign::Cisco,
        "$8$saltsaltsaltsa$...........................................$",
        ForeignFault::Form,
    ),
    (
        Foreign::Cisco,
        "$8$saltsaltsaltsa$........................................../",
        ForeignFault::Hash,
    ),
    (
        Foreign::Mosquitto,
        "$7$101$c2FsdHNhbHRzYWx0c2FsdA==",
        ForeignFault::Form,
    ),
    (Foreign::Mosquitto, "$7$0101$?$?", ForeignFault::Rounds),
    (Foreign::Mosquitto, "$7$101$?$?", ForeignFault::Salt),
    (
        Foreign::Mosquitto,
        "$7$101$c2FsdA==$?",
        ForeignFault::SaltLength,
    ),
    (
        Foreign::Mosquitto,
        "$7$101$c2FsdHNhbHRzYWx0c2FsdA==$AAAAAAAAAAAAAAAAAAAAAAAAAAAAAAAAAAAAAAAAAAA",
        ForeignFault::Hash,
    ),
    (
        Foreign::MediaWiki,
        ":pbkdf2:sha512:30000:64:c2FsdHNhbHRzYWx0c2FsdA==",
        ForeignFault::Form,
    ),
    (
        Foreign::MediaWiki,
        ":pbkdf2:sha512:x:64:?:?",
        ForeignFault::Rounds,
    ),
    (
        Foreign::MediaWiki,
        ":pbkdf2:sha512:30000:64:?:?",
        ForeignFault::Salt,
    ),
    (
        Foreign::MediaWiki,
        ":pbkdf2:sha512:30000:x:c2FsdHNhbHRzYWx0c2FsdA==:?",
        ForeignFault::Hash,
    ),
    (
        Foreign::MediaWiki,
        ":pbkdf2:sha512:30000:64:c2FsdHNhbHRzYWx0c2FsdA==:AAAAAAAAAAAAAAAAAAAAAAAAAAAAAAAAAAAAAAAAAAA=",
        ForeignFault::HashLength,
    ),
    (
        Foreign::MediaWiki,
        ":pbkdf2:sha256:30000:x:c2FsdHNhbHRzYWx0c2FsdA==:AAAAAAAAAAAAAAAAAAAAAAAAAAAAAAAAAAAAAAAAAAA=",
        ForeignFault::HashLength,
    ),
    (
        Foreign::Grub,
        "grub.pbkdf2.sha512.1000.00",
        ForeignFault::Form,
    ),
    (
        Foreign::Grub,
        "grub.pbkdf2.sha512.-1.0.0",
        ForeignFault::Rounds,
    ),
    (
        Foreign::Grub,
        "grub.pbkdf2.sha512.1.aA.0",
        ForeignFault::Salt,
    ),
    (
        Foreign::Grub,
        "grub.pbkdf2.sha512.1.00000000000000000000000000000000000000000000000000000000000000000000000000000000000000000000000000000000000000000000000000000000.0",
        ForeignFault::SaltLength,
    ),
    (
        Foreign::Grub,
        "grub.pbkdf2.sha512.1.0000000000000000000000000000000000000000000000000000000000000000000000000000000000000000000000000000000000000000000000000000000000.0",
        ForeignFault::Salt,
    ),
    (
        Foreign::Grub,
        "grub.pbkdf2.sha512.1.0A0A0A0A0A0A0A0A0A0A0A0A0A0A0A0A.0a0A",
        ForeignFault::Hash,
    ),
];

fn faults() -> &'static [(Foreign, &'static str, ForeignFault)] {
    FAULTS
}

#[test]
fn first_faults(rt: HostRuntime) {
    for (foreign, text, fault) in faults() {
        assert!(rt; fault_of(*foreign, text) == Some(*fault), "{text}");
    }
    assert!(rt; ForeignFault::Cost.word() == "foreign-cost");
}

// The same of directories: locked accounts, clear texts, and texts of a dump with a colon.
const OF_DIRECTORIES: &[(Foreign, &str, ForeignFault)] = &[
    (Foreign::Ldif, "{CRYPT}$6$x$y:", ForeignFault::Form),
    (Foreign::Ldif, "$6$x:y", ForeignFault::Form),
    (Foreign::Ldap, "{CRYPT}!$6$x$y", ForeignFault::Locked),
    (Foreign::Ldap, "{CRYPT}*", ForeignFault::Locked),
    (Foreign::Ldap, "{crypt}*LK*", ForeignFault::Locked),
    (Foreign::Ldap, "{crypt}x", ForeignFault::Locked),
    (Foreign::Ldap, "{CRYPT}", ForeignFault::Locked),
    (
        Foreign::Ldap,
        "{CRYPT}xx",
        ForeignFault::Unread(Unread::DesCrypt),
    ),
    (
        Foreign::Ldap,
        "!geheim",
        ForeignFault::Unread(Unread::Cleartext),
    ),
    (Foreign::Ldap, "*", ForeignFault::Unread(Unread::Cleartext)),
    (
        Foreign::Ldif,
        "!{SSHA}x:y",
        ForeignFault::Unread(Unread::Cleartext),
    ),
    (Foreign::Ldif, "{CRYPT}!", ForeignFault::Locked),
    (Foreign::Dovecot, "{CRYPT}!!", ForeignFault::Locked),
];

fn of_directories() -> &'static [(Foreign, &'static str, ForeignFault)] {
    OF_DIRECTORIES
}

#[test]
fn first_faults_of_directories(rt: HostRuntime) {
    for (foreign, text, fault) in of_directories() {
        assert!(rt; fault_of(*foreign, text) == Some(*fault), "{text}");
    }
}

// Texts of schemes that are not read.
const UNREAD: &[(Foreign, &str, Unread)] = &[
    (Foreign::Werkzeug, "md5$ab$00", Unread::Md5),
    (Foreign::Werkzeug, "sha1$ab$00", Unread::Sha1),
    (Foreign::Werkzeug, "sha512$ab$00", Unread::Sha2),
    (Foreign::Werkzeug, "plain$$secret", Unread::Cleartext),
    (Foreign::Werkzeug, "x$y$z", Unread::Other),
    (Foreign::Dovecot, "secret", Unread::Cleartext),
    (Foreign::Dovecot, "{PLAIN}secret", Unread::Cleartext),
    (Foreign::Dovecot, "{CRYPT}ud03EAGigf5FA", Unread::DesCrypt),
    (
        Foreign::Dovecot,
        "{DES-CRYPT}ud03EAGigf5FA",
        Unread::DesCrypt,
    ),
    (Foreign::Dovecot, "{SCRAM-SHA-1}4096,x,y,z", Unread::Scram),
    (Foreign::Dovecot, "{cram-md5}00", Unread::Md5),
    (Foreign::Dovecot, "{SHA512-CRYPT.HEX}24", Unread::Other),
    (Foreign::Dovecot, "{SHA512-CRYPT.b64}JDYk", Unread::Other),
    (Foreign::Spring, "{noop}secret", Unread::Cleartext),
    (Foreign::Spring, "{sha256}00", Unread::Sha2),
    (Foreign::Spring, "{SHA-1}00", Unread::Sha1),
    (Foreign::Spring, "{MD5}00", Unread::Md5),
    (Foreign::Spring, "{ldap}{SSHA}x", Unread::Other),
    (
        Foreign::Elasticsearch,
        "{PBKDF2_STRETCH}1000$x$y",
        Unread::Other,
    ),
    (Foreign::Elasticsearch, "{SSHA}x", Unread::Sha1),
    (Foreign::Cisco, "094F471A1A0A", Unread::Other),
    (Foreign::Mosquitto, "$6$c2FsdA==$x", Unread::Sha2),
    (Foreign::Mosquitto, "secret", Unread::Other),
    (
        Foreign::MediaWiki,
        ":pbkdf2:whirlpool:1000:64:x:y",
        Unread::Other,
    ),
    (Foreign::MediaWiki, ":B:1:0", Unread::Md5),
    (Foreign::MediaWiki, ":A:0", Unread::Md5),
    (Foreign::MediaWiki, ":bcrypt:x", Unread::Other),
    (Foreign::Grub, "secret", Unread::Other),
    (
        Foreign::Postgres,
        "md5a3556571e93b0d20722ba62be61e8c2d",
        Unread::Md5,
    ),
    (Foreign::Postgres, "secret", Unread::Other),
];

fn unread() -> &'static [(Foreign, &'static str, Unread)] {
    UNREAD
}

#[test]
fn schemes_of_makers(rt: HostRuntime) {
    for (foreign, text, scheme) in unread() {
        assert!(rt;
            fault_of(*foreign, text) == Some(ForeignFault::Unread(*scheme)),
            "{text}"
        );
    }
    assert!(rt; ForeignFault::Unread(Unread::Scram).word() == "unsupported-scram");
}

// In a line of users a text with colons goes on to the end.
#[test]
fn makers_with_colons(rt: HostRuntime) {
    assert!(rt; Foreign::Werkzeug.has_colons());
    assert!(rt; Foreign::MediaWiki.has_colons());
    assert!(rt; Foreign::Postgres.has_colons());
    assert!(rt; !Foreign::Django.has_colons());
    assert!(rt; !Foreign::Grub.has_colons());
}
