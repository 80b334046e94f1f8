ghost use Rattle.std.specs.Prelude.{◌≡◌};
ghost use Rattle.setsep_build.specs.Workers.{most_workers};
ghost use Rattle.setsep_build.specs.declared.building.TheConstants.{MOST_WORKERS};

/// The number of workers that the code goes by is that of the definitions. The call does nothing.
pub fn the_limits_are()
    ensures { MOST_WORKERS ≡ most_workers }
{}
