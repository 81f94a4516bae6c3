ghost use Rattle.csv.specs.Reading.{AreRecords, default_config, strip_bom};
ghost use Rattle.csv.specs.declared.parser.State.TheVariants as st;
ghost use Rattle.array_data.specs.Data.{records_of};

// It does nothing: its contract is a law over the definitions.

/// The records of the data are read one after the other from its start to its end.
pub fn records_reach_the_end(bytes: &[u8])
    ensures { AreRecords default_config st.StartRecord (strip_bom bytes.now)
        (records_of bytes.now) }
{}
