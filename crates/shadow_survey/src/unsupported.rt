//! Texts that have no verdict, told apart by their forms.

ghost use Rattle.std.specs.Prelude.{◌≡◌, ◌<◌, ◌≤◌, Some, length, nat_eq};
ghost use Rattle.std.specs.List.{slice_get, starts_with};
ghost use Rattle.shadow_survey.specs.Unsupported.{begins_as, form_of, forms, has_form, is_bsdicrypt, is_descrypt, place, row};

use pieces::characters::are_crypt_characters;

/// The form of a text that has no verdict. Sources: crypt(5) of libxcrypt, the documentation of passlib, slapd-passwd(5) of
/// OpenLDAP; and of texts that a converter of foreign ones doesn't read, its words.
#[derive(Clone, Copy, Debug, PartialEq, Eq)]
pub enum UnsupportedForm {
    /// The traditional one of DES: 13 characters (crypt(5)).
    Descrypt,
    /// The extended one of DES: `_` and 19 characters (crypt(5)).
    Bsdicrypt,
    /// The NT hash, `$3$` (crypt(5)).
    Nt,
    /// Sun's MD5, `$md5` (crypt(5)).
    Sunmd5,
    /// yescrypt with GOST's hash, `$gy$` (crypt(5)).
    GostYescrypt,
    /// SHA-crypt's form with SM3, `$sm3$` (crypt(5)).
    Sm3crypt,
    /// yescrypt with SM3, `$sm3y$` (crypt(5)).
    Sm3Yescrypt,
    /// PBKDF2 with SHA-1 in passlib's form, `$pbkdf2$`, which a converter reads.
    PasslibPbkdf2,
    /// SCRAM, `$scram$` (passlib).
    Scram,
    /// `{SHA}` (slapd-passwd(5), htpasswd(1)).
    LdapSha,
    /// `{SSHA}` (slapd-passwd(5)).
    LdapSsha,
    /// `{MD5}` (slapd-passwd(5)).
    LdapMd5,
    /// `{SMD5}` (slapd-passwd(5)).
    LdapSmd5,
    /// Another scheme in braces.
    Ldap,
    /// SHA-1 without a cost, of a maker.
    Sha1,
    /// MD5 without a cost, of a maker.
    Md5,
    /// SHA-2 without a cost, of a maker.
    Sha2,
    /// The password itself, as a maker has it.
    ClearText,
    /// Another scheme of a maker.
    Another,
    /// A maker's text that has a fault.
    Faulty,
    /// MySQL's, `*` and 40 hexadecimal digits (`PASSWORD()`): what begins with `*` and isn't locked.
    MysqlNative,
    /// None of these: it may be the password itself.
    Unknown,
}

/// How many forms there are.
pub(crate) const FORM_COUNT: usize = 22;

// The forms, in the order in which they are tried and told.
const FORMS: [UnsupportedForm; FORM_COUNT] = [
    UnsupportedForm::Descrypt,
    UnsupportedForm::Bsdicrypt,
    UnsupportedForm::Nt,
    UnsupportedForm::Sunmd5,
    UnsupportedForm::GostYescrypt,
    UnsupportedForm::Sm3crypt,
    UnsupportedForm::Sm3Yescrypt,
    UnsupportedForm::PasslibPbkdf2,
    UnsupportedForm::Scram,
    UnsupportedForm::LdapSha,
    UnsupportedForm::LdapSsha,
    UnsupportedForm::LdapMd5,
    UnsupportedForm::LdapSmd5,
    UnsupportedForm::Ldap,
    UnsupportedForm::Sha1,
    UnsupportedForm::Md5,
    UnsupportedForm::Sha2,
    UnsupportedForm::ClearText,
    UnsupportedForm::Another,
    UnsupportedForm::Faulty,
    UnsupportedForm::MysqlNative,
    UnsupportedForm::Unknown,
];

// A row: the name, and two beginnings of texts, which may be the same.
type Row = (&'static str, &'static str, &'static str);

fn is_descrypt(text: &[u8]) -> bool
    ensures { result ≡ is_descrypt text.now }
{
    text.len() == 13 && are_crypt_characters(text)
}

fn is_bsdicrypt(text: &[u8]) -> bool
    ensures { result ≡ is_bsdicrypt text.now }
{
    match text.split_first() {
        Some((first, rest)) => { *first == b'_' && rest.len() == 19 && are_crypt_characters(rest) }
        None => false,
    }
}

impl UnsupportedForm {
    /// The place among the forms.
    pub(crate) fn place(self) -> usize
        ensures place { result ≡ place self }
        ensures most { result < length forms }
        ensures there { slice_get forms result ≡ Some self }
    {
        self as usize
    }

    /// The form at a place.
    pub(crate) fn at(place: usize) -> UnsupportedForm
        requires most { place < length forms }
        ensures form { slice_get forms place ≡ Some result }
    {
        FORMS[place]
    }

    // What is known of the form: the table.
    fn row(self) -> Row
        ensures name { result.0.now ≡ (row self).name }
        ensures beginning { result.1.now ≡ (row self).beginning }
        ensures other { result.2.now ≡ (row self).other }
        ensures short { length result.0.now ≤ 30 }
    {
        match self {
            UnsupportedForm::Descrypt => {
                ("descrypt", "unsupported-des-crypt", "unsupported-des-crypt")
            }
            UnsupportedForm::Bsdicrypt => ("bsdicrypt", "_", "_"),
            UnsupportedForm::Nt => ("nt", "$3$", "$3$"),
            UnsupportedForm::Sunmd5 => ("sunmd5", "$md5", "$md5"),
            UnsupportedForm::GostYescrypt => ("gost-yescrypt", "$gy$", "$gy$"),
            UnsupportedForm::Sm3crypt => ("sm3crypt", "$sm3$", "$sm3$"),
            UnsupportedForm::Sm3Yescrypt => ("sm3-yescrypt", "$sm3y$", "$sm3y$"),
            UnsupportedForm::PasslibPbkdf2 => ("passlib $pbkdf2$", "$pbkdf2$", "$pbkdf2$"),
            UnsupportedForm::Scram => ("scram", "$scram$", "unsupported-scram"),
            UnsupportedForm::LdapSha => ("ldap {SHA}", "{SHA}", "{sha}"),
            UnsupportedForm::LdapSsha => ("ldap {SSHA}", "{SSHA}", "{ssha}"),
            UnsupportedForm::LdapMd5 => ("ldap {MD5}", "{MD5}", "{md5}"),
            UnsupportedForm::LdapSmd5 => ("ldap {SMD5}", "{SMD5}", "{smd5}"),
            UnsupportedForm::Ldap => ("ldap", "{", "{"),
            UnsupportedForm::Sha1 => ("sha1", "unsupported-sha1", "unsupported-sha1"),
            UnsupportedForm::Md5 => ("md5", "unsupported-md5", "unsupported-md5"),
            UnsupportedForm::Sha2 => ("sha2", "unsupported-sha2", "unsupported-sha2"),
            UnsupportedForm::ClearText => {
                (
                    "clear text",
                    "unsupported-cleartext",
                    "unsupported-cleartext",
                )
            }
            UnsupportedForm::Another => ("another scheme", "unsupported-", "unsupported-"),
            UnsupportedForm::Faulty => ("foreign text with a fault", "foreign-", "foreign-"),
            UnsupportedForm::MysqlNative => ("mysql_native_password", "*", "*"),
            UnsupportedForm::Unknown => ("clear text or unknown", "", ""),
        }
    }

    /// The name.
    pub fn name(self) -> &'static str
        ensures name { result.now ≡ (row self).name }
        ensures short { length result.now ≤ 30 }
    {
        self.row().0
    }

    // Whether a text begins as the table has it.
    fn begins(self, text: &[u8]) -> bool
        ensures { result ≡ begins_as (row self) text.now }
    {
        let (_, beginning, other) = self.row();
        text.starts_with(beginning.as_bytes()) || text.starts_with(other.as_bytes())
    }

    // Whether a text has the form.
    fn is_of(self, text: &[u8]) -> bool
        ensures { result ≡ has_form text.now self }
    {
        match self {
            UnsupportedForm::Descrypt => is_descrypt(text) || self.begins(text),
            UnsupportedForm::Bsdicrypt => is_bsdicrypt(text),
            _ => self.begins(text),
        }
    }
}

/// The first form that a text has.
pub(crate) fn form_of(text: &[u8]) -> UnsupportedForm
    ensures { result ≡ form_of text.now }
{
    for place in 0..FORM_COUNT {
        let form = UnsupportedForm::at(place);
        if form.is_of(text) {
            return form;
        }
    }
    UnsupportedForm::Unknown
}
