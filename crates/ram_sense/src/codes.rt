//! The sense that the drive gives, under the names that INCITS MMC has for it.
ghost use Rattle.std.specs.Prelude.{◌≡◌};
ghost use Rattle.model_sense.specs.Sense.{sense, sense_at};
ghost use Rattle.ram_sense.specs.declared.codes.TheConstants.{NO_SENSE, MEDIUM_NOT_PRESENT, MEDIUM_FORMAT_CORRUPTED, FORMAT_COMMAND_FAILED, DEFECT_LIST_UPDATE_FAILURE, PARAMETER_LIST_LENGTH_ERROR, INVALID_OPERATION_CODE, ADDRESS_OUT_OF_RANGE, INVALID_FIELD_IN_COMMAND, INVALID_FIELD_IN_PARAMETERS, SAVING_NOT_SUPPORTED, REMOVAL_PREVENTED, POWER_ON_OCCURRED};

use crate::Sense;

/// 0/00/00: there is nothing to tell.
pub const NO_SENSE: Sense = Sense {
    key: 0x0,
    asc: 0x00,
    ascq: 0x00,
    info: None,
};

/// 2/3A/00: the disc is out.
pub const MEDIUM_NOT_PRESENT: Sense = Sense {
    key: 0x2,
    asc: 0x3a,
    ascq: 0x00,
    info: None,
};

/// 3/31/00: the disc is not formatted.
pub const MEDIUM_FORMAT_CORRUPTED: Sense = Sense {
    key: 0x3,
    asc: 0x31,
    ascq: 0x00,
    info: None,
};

/// 3/31/01: a format found too many defects, or no copy of a list could be written.
pub const FORMAT_COMMAND_FAILED: Sense = Sense {
    key: 0x3,
    asc: 0x31,
    ascq: 0x01,
    info: None,
};

/// 3/32/01: no copy of the list of replaced blocks could be written.
pub const DEFECT_LIST_UPDATE_FAILURE: Sense = Sense {
    key: 0x3,
    asc: 0x32,
    ascq: 0x01,
    info: None,
};

/// 5/1A/00: the data have another length than the command takes.
pub const PARAMETER_LIST_LENGTH_ERROR: Sense = Sense {
    key: 0x5,
    asc: 0x1a,
    ascq: 0x00,
    info: None,
};

/// 5/20/00: the operation code is none of the drive's.
pub const INVALID_OPERATION_CODE: Sense = Sense {
    key: 0x5,
    asc: 0x20,
    ascq: 0x00,
    info: None,
};

/// 5/21/00: the sectors lie past the end of the disc.
pub const ADDRESS_OUT_OF_RANGE: Sense = Sense {
    key: 0x5,
    asc: 0x21,
    ascq: 0x00,
    info: None,
};

/// 5/24/00: the command block is too short, or one of its fields has a value that the drive does not take.
pub const INVALID_FIELD_IN_COMMAND: Sense = Sense {
    key: 0x5,
    asc: 0x24,
    ascq: 0x00,
    info: None,
};

/// 5/26/00: a parameter list has a value that the drive does not take.
pub const INVALID_FIELD_IN_PARAMETERS: Sense = Sense {
    key: 0x5,
    asc: 0x26,
    ascq: 0x00,
    info: None,
};

/// 5/39/00: saved mode pages are asked for, and there are none.
pub const SAVING_NOT_SUPPORTED: Sense = Sense {
    key: 0x5,
    asc: 0x39,
    ascq: 0x00,
    info: None,
};

/// 5/53/02: ejection is asked for while removal is prevented.
pub const REMOVAL_PREVENTED: Sense = Sense {
    key: 0x5,
    asc: 0x53,
    ascq: 0x02,
    info: None,
};

/// 6/29/00: the power came on since the last command.
pub const POWER_ON_OCCURRED: Sense = Sense {
    key: 0x6,
    asc: 0x29,
    ascq: 0x00,
    info: None,
};

/// The key, the code and its qualifier of each sense that has no information.
pub fn senses_are_these()
    ensures no_sense { NO_SENSE ≡ sense 0x0 0x00 0x00 }
    ensures medium_not_present { MEDIUM_NOT_PRESENT ≡ sense 0x2 0x3a 0x00 }
    ensures medium_format_corrupted { MEDIUM_FORMAT_CORRUPTED ≡ sense 0x3 0x31 0x00 }
    ensures format_command_failed { FORMAT_COMMAND_FAILED ≡ sense 0x3 0x31 0x01 }
    ensures defect_list_update_failure { DEFECT_LIST_UPDATE_FAILURE ≡ sense 0x3 0x32 0x01 }
    ensures parameter_list_length_error { PARAMETER_LIST_LENGTH_ERROR ≡ sense 0x5 0x1a 0x00 }
    ensures invalid_operation_code { INVALID_OPERATION_CODE ≡ sense 0x5 0x20 0x00 }
    ensures address_out_of_range { ADDRESS_OUT_OF_RANGE ≡ sense 0x5 0x21 0x00 }
    ensures invalid_field_in_command { INVALID_FIELD_IN_COMMAND ≡ sense 0x5 0x24 0x00 }
    ensures invalid_field_in_parameters { INVALID_FIELD_IN_PARAMETERS ≡ sense 0x5 0x26 0x00 }
    ensures saving_not_supported { SAVING_NOT_SUPPORTED ≡ sense 0x5 0x39 0x00 }
    ensures removal_prevented { REMOVAL_PREVENTED ≡ sense 0x5 0x53 0x02 }
    ensures power_on_occurred { POWER_ON_OCCURRED ≡ sense 0x6 0x29 0x00 }
{}

/// 3/11/00: sector `lba` is the first that cannot be read.
pub fn unrecovered_read_error(lba: u32) -> Sense
    ensures { result ≡ sense_at 0x3 0x11 0x00 lba }
{
    Sense {
        key: 0x3,
        asc: 0x11,
        ascq: 0x00,
        info: Some(lba),
    }
}

/// 3/32/00: the block of sector `lba` cannot be written, and no spare is left for it.
pub fn no_spare_location(lba: u32) -> Sense
    ensures { result ≡ sense_at 0x3 0x32 0x00 lba }
{
    Sense {
        key: 0x3,
        asc: 0x32,
        ascq: 0x00,
        info: Some(lba),
    }
}
