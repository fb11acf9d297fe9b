//! Digests with a salt and texts of PBKDF2 with SHA-1, by their makers' own programs: slappasswd 2.5.13 with its pw-sha2 and
//! pw-pbkdf2, 389 Directory Server 2.3.1, doveadm 2.3.19, Django 3.2, Werkzeug 2.2 and 3.1, and passlib 1.7.4; of Spring, ASP.NET
//! and MediaWiki by their published form. The stored texts were put together by a transcription in Python.

use crate::asked::{fault_of, is_converted};
use foreign_text::{Foreign, ForeignFault, Unread};

// Digests, and the stored texts for them.
const DIGESTS: &[(Foreign, &str, &str)] = &[
    (
        Foreign::Ldap,
        "{SMD5}175BPxZuTKQpII17Qg8czZIH7fw=",
        "$smd5$kgft/A==$175BPxZuTKQpII17Qg8czQ==",
    ),
    (
        Foreign::Ldap,
        "{SSHA}L6MqW/E8Zcy4RBscEiQc50a14apW39jw",
        "$ssha$Vt/Y8A==$L6MqW/E8Zcy4RBscEiQc50a14ao=",
    ),
    (
        Foreign::Ldap,
        "{MD5}Xr4ilOzQ4PCOq3aQ0qbuaQ==",
        "$smd5$$Xr4ilOzQ4PCOq3aQ0qbuaQ==",
    ),
    (
        Foreign::Ldap,
        "{SHA}5en6G6MezRroT3XKqkdPOmY/BfQ=",
        "$ssha$$5en6G6MezRroT3XKqkdPOmY/BfQ=",
    ),
    (
        Foreign::Ldap,
        "{SSHA256}MPPOHze7XHCcFE83/hAlLRgii4Us2RIpfwnYCci3vAcGwTCxB3Huog==",
        "$ssha256$BsEwsQdx7qI=$MPPOHze7XHCcFE83/hAlLRgii4Us2RIpfwnYCci3vAc=",
    ),
    (
        Foreign::Ldap,
        "{SSHA512}JF5zGT7JaG7qtMk4sp4qPmMMHztxvQxQZFx7b9YjWF+x8zB6yk0reT+lFBszdAHEQTpW2wtr1dzpmrIaJsStESU9zMZjrdKR",
        "$ssha512$JT3MxmOt0pE=$JF5zGT7JaG7qtMk4sp4qPmMMHztxvQxQZFx7b9YjWF+x8zB6yk0reT+lFBszdAHEQTpW2wtr1dzpmrIaJsStEQ==",
    ),
    (
        Foreign::Ldap,
        "{SHA256}K7gNU3sdo+OL0wNhqoVWhr3g6s1xYv72ol/pe/Unols=",
        "$ssha256$$K7gNU3sdo+OL0wNhqoVWhr3g6s1xYv72ol/pe/Unols=",
    ),
    (
        Foreign::Ldap,
        "{SHA512}vSsar3708Jvp9Szi2NWZZ02Bqp1qRCFpbcTZPdBhnWgs5WtNZKnvCXdhztmeD2cmW192CF5bDufKRpayrW/isg==",
        "$ssha512$$vSsar3708Jvp9Szi2NWZZ02Bqp1qRCFpbcTZPdBhnWgs5WtNZKnvCXdhztmeD2cmW192CF5bDufKRpayrW/isg==",
    ),
    (
        Foreign::Ldap,
        "{SSHA512}J37XHP+ir/NHsU3KWxpsW1E5qI1JbYSCLMsvRp8JLWp9qGsZFRUt+FzVtKiQcbF+wArqqKP0sW6Cuqjg/K97LRrwrQmIXBvZ",
        "$ssha512$GvCtCYhcG9k=$J37XHP+ir/NHsU3KWxpsW1E5qI1JbYSCLMsvRp8JLWp9qGsZFRUt+FzVtKiQcbF+wArqqKP0sW6Cuqjg/K97LQ==",
    ),
    (
        Foreign::Ldap,
        "{SSHA}o2H0b4UBfQyqGRaJhUQjNKpS9sf53zvHeI/R+j9njDGG0BqD",
        "$ssha$+d87x3iP0fo/Z4wxhtAagw==$o2H0b4UBfQyqGRaJhUQjNKpS9sc=",
    ),
    (
        Foreign::Ldap,
        "{SMD5}k7EutJ54LWOjTlPuSiKzijjHWEsJ4dxb612Lsdba+18=",
        "$smd5$OMdYSwnh3FvrXYux1tr7Xw==$k7EutJ54LWOjTlPuSiKzig==",
    ),
    (
        Foreign::Ldap,
        "{SSHA512}z75z0dGbHaeFwkyshqX2+5AGpOvYOAYLoMdm3dRnkErFBRrlsiyIKww0pZ33ayB4XepagL7Kz1x5HvYpsm7ayXNzc3Nzc3Nzc3Nzc3Nzc3Nzc3Nzc3Nzc3Nzc3Nzc3Nzc3Nzc3Nzc3Nzc3Nzc3Nzcw==",
        "$ssha512$c3Nzc3Nzc3Nzc3Nzc3Nzc3Nzc3Nzc3Nzc3Nzc3Nzc3Nzc3Nzc3Nzc3Nzc3Nzc3Nz$z75z0dGbHaeFwkyshqX2+5AGpOvYOAYLoMdm3dRnkErFBRrlsiyIKww0pZ33ayB4XepagL7Kz1x5HvYpsm7ayQ==",
    ),
    (
        Foreign::Ldap,
        "{SSHA}/oZVgUPAvVKPZJoVO9wyuPqQMBxz",
        "$ssha$cw==$/oZVgUPAvVKPZJoVO9wyuPqQMBw=",
    ),
    (
        Foreign::Ldap,
        "{ssha256}+E+iFJ27Yu1ODPH1UNKUmzOmUT06dwfghQJRHHnMsO5zYWx0",
        "$ssha256$c2FsdA==$+E+iFJ27Yu1ODPH1UNKUmzOmUT06dwfghQJRHHnMsO4=",
    ),
    (
        Foreign::Ldap,
        "{md5}Xr4ilOzQ4PCOq3aQ0qbuaQ==",
        "$smd5$$Xr4ilOzQ4PCOq3aQ0qbuaQ==",
    ),
    (
        Foreign::Dovecot,
        "{SHA}mN7MYuzjmaIu0w1JDvMzvn/ec4U=",
        "$ssha$$mN7MYuzjmaIu0w1JDvMzvn/ec4U=",
    ),
    (
        Foreign::Dovecot,
        "{SHA1}mN7MYuzjmaIu0w1JDvMzvn/ec4U=",
        "$ssha$$mN7MYuzjmaIu0w1JDvMzvn/ec4U=",
    ),
    (
        Foreign::Dovecot,
        "{SSHA}AC/3Vb0VUIZz4wxC5cTHUT/wQnjbQcnI",
        "$ssha$20HJyA==$AC/3Vb0VUIZz4wxC5cTHUT/wQng=",
    ),
    (
        Foreign::Dovecot,
        "{SHA256}kCjqDRXeyqNbLaIcApCvOxpboKMKWRkG+JtQdOIJ6nI=",
        "$ssha256$$kCjqDRXeyqNbLaIcApCvOxpboKMKWRkG+JtQdOIJ6nI=",
    ),
    (
        Foreign::Dovecot,
        "{SSHA256}ovH5RVj39EXIT6AUIikNR2FOx9obl0gTeCXygaZgzZ6vc/au",
        "$ssha256$r3P2rg==$ovH5RVj39EXIT6AUIikNR2FOx9obl0gTeCXygaZgzZ4=",
    ),
    (
        Foreign::Dovecot,
        "{SHA512}zvYeTk7ae6ii/qoSBhf896UTrZIEQjsl4kO30/VW+ShT6VsVatr/3Zon0OUHNq1qa7zFDOipvTUWL315nomlIQ==",
        "$ssha512$$zvYeTk7ae6ii/qoSBhf896UTrZIEQjsl4kO30/VW+ShT6VsVatr/3Zon0OUHNq1qa7zFDOipvTUWL315nomlIQ==",
    ),
    (
        Foreign::Dovecot,
        "{SSHA512}NzBL7GnCR8+4dts6oLuuwW1pNbBxRyJtmT/QDQuQ6bF8Pb6HuCRY+XOiiLl8mzQlg3GezKJW/tjf1mlkJHATPnXRXcM=",
        "$ssha512$ddFdww==$NzBL7GnCR8+4dts6oLuuwW1pNbBxRyJtmT/QDQuQ6bF8Pb6HuCRY+XOiiLl8mzQlg3GezKJW/tjf1mlkJHATPg==",
    ),
    (
        Foreign::Dovecot,
        "{SMD5}F6K2ja3s1F8d9PLIXPDgTbrtEA0=",
        "$smd5$uu0QDQ==$F6K2ja3s1F8d9PLIXPDgTQ==",
    ),
    (
        Foreign::Dovecot,
        "{LDAP-MD5}iOTd0kAtktUOGHnW7Nn/1A==",
        "$smd5$$iOTd0kAtktUOGHnW7Nn/1A==",
    ),
    (
        Foreign::Dovecot,
        "{ssha}gVK8WC9YyFT1gMsQHTGCgT3sSv5zYWx0",
        "$ssha$c2FsdA==$gVK8WC9YyFT1gMsQHTGCgT3sSv4=",
    ),
    (
        Foreign::Dovecot,
        "{sha1}5en6G6MezRroT3XKqkdPOmY/BfQ=",
        "$ssha$$5en6G6MezRroT3XKqkdPOmY/BfQ=",
    ),
    (
        Foreign::Ldif,
        "{SSHA}kP60+qGelCJsnJrHjXVVU235SvBW3JjP",
        "$ssha$VtyYzw==$kP60+qGelCJsnJrHjXVVU235SvA=",
    ),
];

fn digests() -> &'static [(Foreign, &'static str, &'static str)] {
    DIGESTS
}

#[test]
fn digests_of_makers(rt: HostRuntime) {
    for (foreign, text, stored) in digests() {
        assert!(rt; is_converted(*foreign, text, stored), "{text}");
        assert!(rt; is_converted(*foreign, stored, stored), "{stored}");
    }
}

// Texts of PBKDF2 with SHA-1.
const RECORDS: &[(Foreign, &str, &str)] = &[
    (
        Foreign::Ldap,
        "{PBKDF2}10000$uuT6ziMSqPPnSeeZS1Xwlw$v4sD.a6qabYVuiZFgIS.YUM2BHk",
        "$pbkdf2-sha1$i=10000$uuT6ziMSqPPnSeeZS1Xwlw$v4sD+a6qabYVuiZFgIS+YUM2BHk",
    ),
    (
        Foreign::Ldap,
        "{PBKDF2}10000$HPcsVV9QIqGZ4JfTa0Tb.g$ogEE1KJH9bxpq0cWvF6nNzUNQV8",
        "$pbkdf2-sha1$i=10000$HPcsVV9QIqGZ4JfTa0Tb+g$ogEE1KJH9bxpq0cWvF6nNzUNQV8",
    ),
    (
        Foreign::Ldap,
        "{PBKDF2-SHA1}10000$h9mAzwQsCiX/7tzWQTaCog$.3mAlciCR4Ycj85TV6YGTM43khc",
        "$pbkdf2-sha1$i=10000$h9mAzwQsCiX/7tzWQTaCog$+3mAlciCR4Ycj85TV6YGTM43khc",
    ),
    (
        Foreign::Ldap,
        "{PBKDF2-SHA1}10000$TfAc2y430sEnF5rYXQkojjaXs9UoHZvp$ZJwP/K5xS7OmZ+0MaQRz6bIPY/0=",
        "$pbkdf2-sha1$i=10000$TfAc2y430sEnF5rYXQkojjaXs9UoHZvp$ZJwP/K5xS7OmZ+0MaQRz6bIPY/0",
    ),
    (
        Foreign::Ldap,
        "{PBKDF2-SHA1}10000$FqCUCl8Qdki2kdiAHoPliuvtgIQX7xAB$7JVdIttOL+2hUduetojEB9qNt+0=",
        "$pbkdf2-sha1$i=10000$FqCUCl8Qdki2kdiAHoPliuvtgIQX7xAB$7JVdIttOL+2hUduetojEB9qNt+0",
    ),
    (
        Foreign::Ldap,
        "{PBKDF2}1000$fO9d6/0/ByA$8aYRqb9f9ZiNBk7yorheKBBnKTA",
        "$pbkdf2-sha1$i=1000$fO9d6/0/ByA$8aYRqb9f9ZiNBk7yorheKBBnKTA",
    ),
    (
        Foreign::Ldap,
        "{pbkdf2-sha1}10000$TfAc2y430sEnF5rYXQkojjaXs9UoHZvp$ZJwP/K5xS7OmZ+0MaQRz6bIPY/0=",
        "$pbkdf2-sha1$i=10000$TfAc2y430sEnF5rYXQkojjaXs9UoHZvp$ZJwP/K5xS7OmZ+0MaQRz6bIPY/0",
    ),
    (
        Foreign::Dovecot,
        "{PBKDF2}$1$sBwLTjZBsdt2tWC6$5000$207886bedd37a86cc689a72a9a9a7e5a2745a9d1",
        "$pbkdf2-sha1$i=5000$c0J3TFRqWkJzZHQydFdDNg$IHiGvt03qGzGiacqmpp+WidFqdE",
    ),
    (
        Foreign::Dovecot,
        "{PBKDF2}$1$1XwuBINbe9cQJOE4$7$5b2543908958172d77400b13e2af25e6c411717b",
        "$pbkdf2-sha1$i=7$MVh3dUJJTmJlOWNRSk9FNA$WyVDkIlYFy13QAsT4q8l5sQRcXs",
    ),
    (
        Foreign::Django,
        "pbkdf2_sha1$260000$ug5LD7PGgjcTKYQaZN0fx1$ryp/NJ3PCjKOFQC2K7jGgNZKoQ8=",
        "$pbkdf2-sha1$i=260000$dWc1TEQ3UEdnamNUS1lRYVpOMGZ4MQ$ryp/NJ3PCjKOFQC2K7jGgNZKoQ8",
    ),
    (
        Foreign::Django,
        "pbkdf2_sha1$260000$5tUuRbTprQctOuV6fMZRny$niPsXlC3YenwH64URFvG7DPahgY=",
        "$pbkdf2-sha1$i=260000$NXRVdVJiVHByUWN0T3VWNmZNWlJueQ$niPsXlC3YenwH64URFvG7DPahgY",
    ),
    (
        Foreign::Werkzeug,
        "pbkdf2:sha1:1000$m5fHvczOYjIkUa3T$de35a11a1ee1e5af5b12395ffceace0749ca680d",
        "$pbkdf2-sha1$i=1000$bTVmSHZjek9ZaklrVWEzVA$3jWhGh7h5a9bEjlf/OrOB0nKaA0",
    ),
    (
        Foreign::Werkzeug,
        "pbkdf2:sha1:1000$uhrsi4VLzxZu9ITw$7b80109f8059bfd7ba3a68ec420755a5f0ba67a0",
        "$pbkdf2-sha1$i=1000$dWhyc2k0Vkx6eFp1OUlUdw$e4AQn4BZv9e6OmjsQgdVpfC6Z6A",
    ),
    (
        Foreign::Passlib,
        "$pbkdf2$1000$E4JQqrXWeg.hVEoJYewdww$5QKqK5jT.AIl8CwMzvJLRFPfrlk",
        "$pbkdf2-sha1$i=1000$E4JQqrXWeg+hVEoJYewdww$5QKqK5jT+AIl8CwMzvJLRFPfrlk",
    ),
    (
        Foreign::Passlib,
        "$pbkdf2$1000$2FsLgZDyXivlvHfuHeP8Hw$f8g0y.wpmDzS6ugaRaDXSnGt7QA",
        "$pbkdf2-sha1$i=1000$2FsLgZDyXivlvHfuHeP8Hw$f8g0y+wpmDzS6ugaRaDXSnGt7QA",
    ),
    (
        Foreign::Spring,
        "{pbkdf2}068eb387f53ba7e1b9451763d1ec0d15b3e9d624784973b013d1e3fcc8690c45e5efd3295bbf3cb1",
        "$pbkdf2-sha1$i=185000$Bo6zh/U7p+E$uUUXY9HsDRWz6dYkeElzsBPR4/zIaQxF5e/TKVu/PLE",
    ),
    (
        Foreign::Spring,
        "{pbkdf2}793e8af5d888127d108b8eba861592a7cea3ffe5dd752d0ba1888fa89ce35def66b75e750f3b60de",
        "$pbkdf2-sha1$i=185000$eT6K9diIEn0$EIuOuoYVkqfOo//l3XUtC6GIj6ic413vZrdedQ87YN4",
    ),
    (
        Foreign::AspNet,
        "AORUGjJli3XbkbYK7rWQG+ZLG0FYLjJJswjfJlz1xlG2PpACuFAZtgL/CiFlAjSP9g==",
        "$pbkdf2-sha1$i=1000$5FQaMmWLdduRtgrutZAb5g$SxtBWC4ySbMI3yZc9cZRtj6QArhQGbYC/wohZQI0j/Y",
    ),
    (
        Foreign::AspNet,
        "AQAAAAAAACcQAAAAEJETKkMd+OYz5lLC9hcUovDeS03IfEzHO06iUcVsAGU4MfBvxvo3LKpaaQayrrUK9w==",
        "$pbkdf2-sha1$i=10000$kRMqQx345jPmUsL2FxSi8A$3ktNyHxMxztOolHFbABlODHwb8b6NyyqWmkGsq61Cvc",
    ),
    (
        Foreign::MediaWiki,
        ":pbkdf2:sha1:10000:20:LnGx4npUwj4RqSXa3eXHmQ==:vDiH+91LHep2v4FTcnTuJskttxQ=",
        "$pbkdf2-sha1$i=10000$LnGx4npUwj4RqSXa3eXHmQ$vDiH+91LHep2v4FTcnTuJskttxQ",
    ),
    (
        Foreign::Django,
        "pbkdf2_sha1$3$CQGgXkH1zxFUb$GLn5Ai20ScanjT8A5+7iI21zErE=",
        "$pbkdf2-sha1$i=3$Q1FHZ1hrSDF6eEZVYg$GLn5Ai20ScanjT8A5+7iI21zErE",
    ),
];

fn records() -> &'static [(Foreign, &'static str, &'static str)] {
    RECORDS
}

#[test]
fn records_of_makers(rt: HostRuntime) {
    for (foreign, text, stored) in records() {
        assert!(rt; is_converted(*foreign, text, stored), "{text}");
        assert!(rt; is_converted(*foreign, stored, stored), "{stored}");
    }
}

// Digests with a fault, the first of those that they have. slapd and doveadm take no password for one of another length than its
// hash function's, or for a salted one without a salt.
const FAULTS: &[(Foreign, &str, ForeignFault)] = &[
    (Foreign::Ldap, "{SSHA}?", ForeignFault::Hash),
    (
        Foreign::Ldap,
        "{SMD5}gVK8WC9YyFT1gMsQHTGCgT3sSv5zYWx",
        ForeignFault::Hash,
    ),
    (
        Foreign::Ldap,
        "{SMD5}Xr4ilOzQ4PCOq3aQ0qbuaXNhbHQ",
        ForeignFault::Hash,
    ),
    (
        Foreign::Ldap,
        "{SHA}5en6G6MezRroT3XKqkdPOmY/BfR=",
        ForeignFault::Hash,
    ),
    (Foreign::Ldap, "{SSHA}", ForeignFault::HashLength),
    (
        Foreign::Ldap,
        "{SSHA}5en6G6MezRroT3XKqkdPOmY/BQ==",
        ForeignFault::HashLength,
    ),
    (
        Foreign::Ldap,
        "{SSHA}5en6G6MezRroT3XKqkdPOmY/BfQ=",
        ForeignFault::SaltLength,
    ),
    (
        Foreign::Ldap,
        "{SSHA512}vSsar3708Jvp9Szi2NWZZ02Bqp1qRCFpbcTZPdBhnWgs5WtNZKnvCXdhztmeD2cmW192CF5bDufKRpayrW/isg==",
        ForeignFault::SaltLength,
    ),
    (
        Foreign::Ldap,
        "{SMD5}Xr4ilOzQ4PCOq3aQ0qbuaXNzc3Nzc3Nzc3Nzc3Nzc3Nzc3Nzc3Nzc3Nzc3Nzc3Nzc3Nzc3Nzc3Nzc3Nzc3Nzc3M=",
        ForeignFault::SaltLength,
    ),
    (
        Foreign::Ldap,
        "{SSHA512}vSsar3708Jvp9Szi2NWZZ02Bqp1qRCFpbcTZPdBhnWgs5WtNZKnvCXdhztmeD2cmW192CF5bDufKRpayrW/isnNzc3Nzc3Nzc3Nzc3Nzc3Nzc3Nzc3Nzc3Nzc3Nzc3Nzc3Nzc3Nzc3Nzc3Nzc3Nzc3M=",
        ForeignFault::SaltLength,
    ),
    (
        Foreign::Ldap,
        "{SSHA}?????????????????????????????????????????????????????????????????????????????????????????????????????????????????????????????????????????????????????????",
        ForeignFault::SaltLength,
    ),
    (
        Foreign::Ldap,
        "{SHA}5en6G6MezRroT3XKqkdPOmY/BfR4",
        ForeignFault::HashLength,
    ),
    (
        Foreign::Ldap,
        "{SHA}e5e9fa1ba31ecd1ae84f75caaa474f3a663f05f4",
        ForeignFault::HashLength,
    ),
    (
        Foreign::Ldap,
        "{SHA256}K7gNU3sdo+OL0wNhqoVWhr3g6s1xYv72ol/pe/Unog==",
        ForeignFault::HashLength,
    ),
    (
        Foreign::Ldap,
        "{SHA512}?????????????????????????????????????????????????????????????????????????????????????????????????????????????????????????????????????????????????????????",
        ForeignFault::HashLength,
    ),
    (
        Foreign::Ldap,
        "{SHA512}????????????????????????????????????????????????????????????????????????????????????????????????????????????????????????????????????????????????????????",
        ForeignFault::Hash,
    ),
    (
        Foreign::Ldap,
        "{MD5}5ebe2294ecd0e0f08eab7690d2a6ee69",
        ForeignFault::HashLength,
    ),
    (
        Foreign::Ldap,
        "{MD5}5en6G6MezRroT3XKqkdPOmY/BfQ=",
        ForeignFault::HashLength,
    ),
    (
        Foreign::Dovecot,
        "{LDAP-MD5}Xr4ilOzQ4PCOq3aQ0qbuaXg=",
        ForeignFault::HashLength,
    ),
    (
        Foreign::Dovecot,
        "{SSHA256}K7gNU3sdo+OL0wNhqoVWhr3g6s1xYv72ol/pe/Unols=",
        ForeignFault::SaltLength,
    ),
    (Foreign::Dovecot, "{SHA1}?", ForeignFault::Hash),
];

fn faults() -> &'static [(Foreign, &'static str, ForeignFault)] {
    FAULTS
}

#[test]
fn first_faults_of_digests(rt: HostRuntime) {
    for (foreign, text, fault) in faults() {
        assert!(rt; fault_of(*foreign, text) == Some(*fault), "{text}");
    }
}

// The same of PBKDF2 with SHA-1.
const RECORD_FAULTS: &[(Foreign, &str, ForeignFault)] = &[
    (Foreign::Ldap, "{PBKDF2}1$YWJjZGVmZ2g", ForeignFault::Form),
    (
        Foreign::Ldap,
        "{PBKDF2}01$YWJjZGVmZ2g$5en6G6MezRroT3XKqkdPOmY/BfQ",
        ForeignFault::Rounds,
    ),
    (
        Foreign::Ldap,
        "{PBKDF2}1$YWJjZGVmZ2g=$5en6G6MezRroT3XKqkdPOmY/BfQ",
        ForeignFault::Salt,
    ),
    (
        Foreign::Ldap,
        "{PBKDF2-SHA1}1$YWJjZGVmZw$5en6G6MezRroT3XKqkdPOmY/BfQ",
        ForeignFault::SaltLength,
    ),
    (
        Foreign::Ldap,
        "{PBKDF2-SHA1}1$YWJjZGVmZ2g$x",
        ForeignFault::Hash,
    ),
    (
        Foreign::Ldap,
        "{PBKDF2}1$YWJjZGVmZ2g$AAAA",
        ForeignFault::HashLength,
    ),
    (
        Foreign::Dovecot,
        "{PBKDF2}5000$saltsalt$e5e9fa1ba31ecd1ae84f75caaa474f3a663f05f4",
        ForeignFault::Form,
    ),
    (
        Foreign::Dovecot,
        "{PBKDF2}$2$saltsalt$5000$e5e9fa1ba31ecd1ae84f75caaa474f3a663f05f4",
        ForeignFault::Form,
    ),
    (
        Foreign::Dovecot,
        "{PBKDF2}$1$saltsalt$5000",
        ForeignFault::Form,
    ),
    (
        Foreign::Dovecot,
        "{PBKDF2}$1$saltsalt$5000$e5e9fa1ba31ecd1ae84f75caaa474f3a663f05f4$",
        ForeignFault::Form,
    ),
    (
        Foreign::Dovecot,
        "{PBKDF2}$1$salt$x$?",
        ForeignFault::Rounds,
    ),
    (
        Foreign::Dovecot,
        "{PBKDF2}$1$saltsal$5000$?",
        ForeignFault::SaltLength,
    ),
    (
        Foreign::Dovecot,
        "{PBKDF2}$1$saltsalt$5000$E5E9FA1BA31ECD1AE84F75CAAA474F3A663F05F4",
        ForeignFault::Hash,
    ),
    (
        Foreign::Dovecot,
        "{PBKDF2}$1$saltsalt$5000$e5e9fa1ba31ecd1ae84f75caaa474f3a663f05",
        ForeignFault::HashLength,
    ),
    (
        Foreign::Dovecot,
        "{PBKDF2}$1$saltsalt$5000$2bb80d537b1da3e38bd30361aa855686bde0eacd7162fef6a25fe97bf527a25b",
        ForeignFault::HashLength,
    ),
    (
        Foreign::Django,
        "pbkdf2_sha1$1$seasalt$5en6G6MezRroT3XKqkdPOmY/BfQ=",
        ForeignFault::SaltLength,
    ),
    (
        Foreign::Django,
        "pbkdf2_sha1$x$seasalt$5en6G6MezRroT3XKqkdPOmY/BfQ=",
        ForeignFault::Rounds,
    ),
    (
        Foreign::Werkzeug,
        "pbkdf2:sha1$saltsalt$e5e9fa1ba31ecd1ae84f75caaa474f3a663f05f4",
        ForeignFault::Form,
    ),
    (
        Foreign::Werkzeug,
        "pbkdf2:sha1:x$salt$0",
        ForeignFault::Rounds,
    ),
    (
        Foreign::Werkzeug,
        "pbkdf2:sha1:1000$saltsalt$E5E9FA1BA31ECD1AE84F75CAAA474F3A663F05F4",
        ForeignFault::Hash,
    ),
    (Foreign::Passlib, "$pbkdf2$", ForeignFault::Form),
    (
        Foreign::Passlib,
        "$pbkdf2$i=3$YWJjZGVmZ2g$5en6G6MezRroT3XKqkdPOmY/BfQ",
        ForeignFault::Rounds,
    ),
    (
        Foreign::Passlib,
        "$pbkdf2$3$jTFGyDlHSGnNGWPM2bvX.g$x",
        ForeignFault::Hash,
    ),
    (Foreign::Spring, "{pbkdf2}00", ForeignFault::Form),
    (
        Foreign::Spring,
        "{pbkdf2}000000000000000000000000000000000000000000000000000000000000000000000000000000000000000000000000",
        ForeignFault::Form,
    ),
    (
        Foreign::Spring,
        "{pbkdf2}0A0A0A0A0A0A0A0A0000000000000000000000000000000000000000000000000000000000000000",
        ForeignFault::Salt,
    ),
    (
        Foreign::Spring,
        "{pbkdf2}00000000000000000A0A0A0A0A0A0A0A0A0A0A0A0A0A0A0A0A0A0A0A0A0A0A0A0A0A0A0A0A0A0A0A",
        ForeignFault::Hash,
    ),
    (Foreign::AspNet, "AAAA", ForeignFault::Form),
    (
        Foreign::AspNet,
        "AAAAAAAAAAAAAAAAAAAAAAAAAAAAAAAAAAAAAAAAAAAAAAAAAAAAAAAAAAAAAAAA",
        ForeignFault::Form,
    ),
    (
        Foreign::AspNet,
        "AAAAAAAAAAAAAAAAAAAAAAAAAAAAAAAAAAAAAAAAAAAAAAAAAAAAAAAAAAAAAAAAAAA=",
        ForeignFault::Form,
    ),
    (
        Foreign::AspNet,
        "AQAAAAAAAAAAAAAAAA==",
        ForeignFault::Rounds,
    ),
    (
        Foreign::AspNet,
        "AQAAAAAAAAABAAAAAA==",
        ForeignFault::SaltLength,
    ),
    (
        Foreign::MediaWiki,
        ":pbkdf2:sha1:1000:20:x:y",
        ForeignFault::Salt,
    ),
    (
        Foreign::MediaWiki,
        ":pbkdf2:sha1:1000:64:c2FsdHNhbHRzYWx0c2FsdA==:5en6G6MezRroT3XKqkdPOmY/BfQ=",
        ForeignFault::HashLength,
    ),
];

fn record_faults() -> &'static [(Foreign, &'static str, ForeignFault)] {
    RECORD_FAULTS
}

#[test]
fn first_faults_of_records(rt: HostRuntime) {
    for (foreign, text, fault) in record_faults() {
        assert!(rt; fault_of(*foreign, text) == Some(*fault), "{text}");
    }
}

// Texts beside these that are not read.
const UNREAD: &[(Foreign, &str, Unread)] = &[
    (
        Foreign::Ldap,
        "{SHA384}WKd1ukESvjAFrkQHznV9iP2nHUBJe7gCbsrFTU4//HIyzo3jq1rLMK45dg/ufFPt",
        Unread::Sha2,
    ),
    (
        Foreign::Ldap,
        "{SSHA384}MDyON+fkZ64EbmFeVmnfGKcJ8nhAxN3XwllEgf3vjoxScvw7xbe6Kk832btUyzFHQO5lUVnvz7Q=",
        Unread::Sha2,
    ),
    (
        Foreign::Ldap,
        "{SHA1}5en6G6MezRroT3XKqkdPOmY/BfQ=",
        Unread::Other,
    ),
    (
        Foreign::Ldap,
        "{LDAP-MD5}Xr4ilOzQ4PCOq3aQ0qbuaQ==",
        Unread::Other,
    ),
    (
        Foreign::Dovecot,
        "{SSHA.HEX}e63ed0e15a537370dd41a1cd8f05205e7d6c64c29dcb852a",
        Unread::Other,
    ),
    (
        Foreign::Dovecot,
        "{SHA256.B64}K7gNU3sdo+OL0wNhqoVWhr3g6s1xYv72ol/pe/Unols=",
        Unread::Other,
    ),
    (
        Foreign::Dovecot,
        "{MD5}Xr4ilOzQ4PCOq3aQ0qbuaQ==",
        Unread::Md5,
    ),
    (
        Foreign::Dovecot,
        "{PLAIN-MD5}5ebe2294ecd0e0f08eab7690d2a6ee69",
        Unread::Md5,
    ),
    (Foreign::Dovecot, "{SSHA384}x", Unread::Sha2),
    (
        Foreign::Dovecot,
        "{PBKDF2-SHA1}1000$YWJjZGVmZ2g$5en6G6MezRroT3XKqkdPOmY/BfQ",
        Unread::Other,
    ),
    (
        Foreign::Elasticsearch,
        "{PBKDF2-SHA1}1000$YWJjZGVmZ2g$5en6G6MezRroT3XKqkdPOmY/BfQ",
        Unread::Other,
    ),
    (Foreign::Elasticsearch, "{SMD5}x", Unread::Md5),
    (Foreign::Elasticsearch, "{SHA512}x", Unread::Sha2),
    (Foreign::Passlib, "pbkdf2$1$YWJjZGVmZ2g$x", Unread::Other),
    (Foreign::Spring, "{SSHA}x", Unread::Other),
];

fn unread() -> &'static [(Foreign, &'static str, Unread)] {
    UNREAD
}

#[test]
fn digests_that_are_not_read(rt: HostRuntime) {
    for (foreign, text, scheme) in unread() {
        assert!(rt;
            fault_of(*foreign, text) == Some(ForeignFault::Unread(*scheme)),
            "{text}"
        );
    }
}
