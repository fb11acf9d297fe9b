//! Laws over the definitions.

ghost use Rattle.foreign_text.specs.Laws.{BareKept, ConvertsToItself, DigestReadAgain, DjangoKept, LdapKept, PasslibKept, ReadAgain};
ghost use Rattle.foreign_text.specs.Laws.{SaltedKept, WerkzeugKept};

/// What a converter gives is in the one spelling: the same converter gives it again.
pub fn converts_to_itself()
    ensures itself { ConvertsToItself }
{}

/// What Django, Werkzeug, OpenLDAP and passlib write for PBKDF2 with a hash (Django for SHA-1 and SHA-256), rounds, a salt and a key
/// becomes the text of the record of these; and what LDAP's servers write for a digest and its salt becomes the text of both.
pub fn keeps_the_fields()
    ensures django { DjangoKept }
    ensures werkzeug { WerkzeugKept }
    ensures ldap { LdapKept }
    ensures passlib { PasslibKept }
    ensures salted { SaltedKept }
    ensures bare { BareKept }
{}

/// The text of a record is read as this record again, and that of a digest as the digest and its salt.
pub fn is_read_again()
    ensures read { ReadAgain }
    ensures digest { DigestReadAgain }
{}
