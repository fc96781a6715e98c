// Laws of the ways of CSR instructions.
ghost use Rattle.leaf_csrs.specs.Laws.{DeniedAreRefused, GrantedAreUsages, RefusedAreDenied, UsagesAreGranted};

/// Does nothing. Its contract says that an access is granted just where a usage of a register fits.
pub fn granted_are_usages()
    ensures there { UsagesAreGranted }
    ensures back { GrantedAreUsages }
{}

/// Does nothing. Its contract says that an access is denied just where one of the two refusals fits.
pub fn denied_are_refused()
    ensures there { RefusedAreDenied }
    ensures back { DeniedAreRefused }
{}
