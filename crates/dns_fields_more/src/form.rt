//! Forms of fields, and which fields the further types have.
ghost use Rattle.std.specs.Prelude.{◌≡◌, IfSome, IfNone, Some, None};
ghost use Rattle.dns_fields_more.specs.Forms.{forms_of, is_last as spec_is_last};

use dns_name::Rtype;

/// What a field is, in octets and in text.
#[derive(Clone, Copy, Debug, PartialEq, Eq)]
pub enum Form {
    /// A number of one octet.
    Number8,
    /// A number of two octets.
    Number16,
    /// A number of four octets.
    Number32,
    /// A name, in lower case in canonical form (RFC 4034 6.2).
    Name,
    /// A name that keeps its case in canonical form (RFC 6840 5.1).
    CasedName,
    /// A character string (RFC 1035 3.3).
    String,
    /// All octets that are left, as text.
    RestText,
    /// All octets that are left, in base 16.
    Rest16,
    /// All octets that are left, in base 64.
    Rest64,
    /// A type (RFC 4034 3.2).
    Rtype,
    /// An algorithm of DNSSEC, a number of one octet (RFC 4034 3.2).
    Algorithm,
    /// A type of certificate, a number of two octets (RFC 4398 2.2).
    CertificateType,
    /// A point in time (RFC 4034 3.2).
    Time,
    /// Octets behind their length, in base 16, or `-` for none (RFC 5155 3.3).
    Salt,
    /// One octet or more behind their length, in base 32 (RFC 5155 3.3).
    Hash,
    /// A bitmap of types, up to the end (RFC 4034 4.1.2).
    Types,
    /// Service parameters, up to the end (RFC 9460 2.2).
    Parameters,
    /// A location (RFC 1876 2).
    Location,
    /// A hardware address of six octets (RFC 7043 3).
    Eui48,
    /// A hardware address of eight octets (RFC 7043 4).
    Eui64,
}

impl Form {
    /// Returns whether a field of the form has all octets that are left.
    pub fn is_last(self) -> bool
        ensures { result ≡ spec_is_last self }
    {
        match self {
            Form::RestText
            | Form::Rest16
            | Form::Rest64
            | Form::Types
            | Form::Parameters
            | Form::Location
            | Form::Eui48
            | Form::Eui64 => true,
            _ => false,
        }
    }
}

static LOCATION: [Form; 1] = [Form::Location];

static NAPTR: [Form; 6] = [
    Form::Number16,
    Form::Number16,
    Form::String,
    Form::String,
    Form::String,
    Form::Name,
];

static CERTIFICATE: [Form; 4] = [
    Form::CertificateType,
    Form::Number16,
    Form::Algorithm,
    Form::Rest64,
];

static RRSIG: [Form; 9] = [
    Form::Rtype,
    Form::Algorithm,
    Form::Number8,
    Form::Number32,
    Form::Time,
    Form::Time,
    Form::Number16,
    Form::Name,
    Form::Rest64,
];

static NSEC: [Form; 2] = [Form::CasedName, Form::Types];

static NSEC3: [Form; 6] = [
    Form::Number8,
    Form::Number8,
    Form::Number16,
    Form::Salt,
    Form::Hash,
    Form::Types,
];

static NSEC3PARAM: [Form; 4] = [Form::Number8, Form::Number8, Form::Number16, Form::Salt];

static ASSOCIATION: [Form; 4] = [Form::Number8, Form::Number8, Form::Number8, Form::Rest16];

static CDS: [Form; 4] = [Form::Number16, Form::Algorithm, Form::Number8, Form::Rest16];

static CDNSKEY: [Form; 4] = [Form::Number16, Form::Number8, Form::Algorithm, Form::Rest64];

static KEY: [Form; 1] = [Form::Rest64];

static CSYNC: [Form; 3] = [Form::Number32, Form::Number16, Form::Types];

static ZONEMD: [Form; 4] = [Form::Number32, Form::Number8, Form::Number8, Form::Rest16];

static SERVICE: [Form; 3] = [Form::Number16, Form::CasedName, Form::Parameters];

static EUI48: [Form; 1] = [Form::Eui48];

static EUI64: [Form; 1] = [Form::Eui64];

static URI: [Form; 3] = [Form::Number16, Form::Number16, Form::RestText];

/// Returns the forms of the fields of a further type, from the left, or None if it is none.
pub fn forms_of(rtype: Rtype) -> Option<&'static [Form]>
    ensures some { IfSome result (λ forms. forms_of rtype ≡ Some forms.now) }
    ensures none { IfNone result (forms_of rtype ≡ None) }
{
    let forms: &'static [Form] = match rtype.to_int() {
        29 => &LOCATION,
        35 => &NAPTR,
        37 => &CERTIFICATE,
        46 => &RRSIG,
        47 => &NSEC,
        50 => &NSEC3,
        51 => &NSEC3PARAM,
        52 | 53 => &ASSOCIATION,
        59 => &CDS,
        60 => &CDNSKEY,
        61 => &KEY,
        62 => &CSYNC,
        63 => &ZONEMD,
        64 | 65 => &SERVICE,
        108 => &EUI48,
        109 => &EUI64,
        256 => &URI,
        _ => return None,
    };
    Some(forms)
}
