//! Laws of service parameters. Each function does nothing; what it ensures is the law.
ghost use Rattle.std.specs.List.{AllZip};
ghost use Rattle.std.specs.Prelude.{List, map};
ghost use Rattle.dns_label.specs.Octets.{AreOctets};
ghost use Rattle.dns_scan.specs.Token.{Token, unquoted};
ghost use Rattle.dns_text.specs.DocumentRows.{WritesToken};
ghost use Rattle.dns_service_parameters.specs.Service.{AreParameters, Parameter, octets_of};
ghost use Rattle.dns_service_parameters.specs.ServiceText.{ScansParameters, parameter_text};

use dns_scan::laws::texts_read_back;

/// What service parameters are printed as scans back as these parameters (RFC 9460 2.1).
///
/// `written`: each is one unquoted token. `scans`: tokens with these texts scan as the parameters.
pub fn printed_parameters_scan_back()
    ensures written { (parameters : List Parameter) → AreParameters parameters → AreOctets (octets_of parameters)
        → AllZip WritesToken (map unquoted (map parameter_text parameters)) (map parameter_text parameters) }
    ensures scans { (parameters : List Parameter) (tokens : List Token) → AreParameters parameters → AreOctets (octets_of parameters)
        → AllZip WritesToken tokens (map parameter_text parameters) → ScansParameters parameters tokens }
{
    texts_read_back();
}
